// A record's 16 bytes, laid into a lent output.
#![tactic(auto)]

ghost use Rattle.std.specs.Prelude.{◌≡◌, ℕ, ◌+◌, ◌*◌, ◌^◌, ◌≤◌, ◌<◌, length, get_or};
ghost use Rattle.laws.specs.Over.{overwrite};
ghost use Rattle.laws.specs.Lists.{tabulate};
ghost use Rattle.laws.specs.Gather.{gather};
ghost use Rattle.records.specs.Rows.{row_bytes, laid, laid_row, laid_if, bytes8, first_word, unit_word, last_word, words_row};

// A record's seven fields. The kind is a number, as the record's bytes have it.
#[derive(Clone, Copy)]
pub struct Row {
    pub unit: u32,
    pub kind: u8,
    pub class: u8,
    pub at: u32,
    pub len: u32,
    pub uri_at: u32,
    pub uri_len: u32,
}

// The 16 bytes of a record, the most significant of each field first.
pub fn record_bytes(r: Row) -> [u8; 16]
    ensures { result ≡ row_bytes r }
{
    let [_, _, unit1, unit0] = r.unit.to_be_bytes();
    let [_, at2, at1, at0] = r.at.to_be_bytes();
    let [_, len2, len1, len0] = r.len.to_be_bytes();
    let [_, uri_at2, uri_at1, uri_at0] = r.uri_at.to_be_bytes();
    let [_, uri_len2, uri_len1, uri_len0] = r.uri_len.to_be_bytes();
    [
        unit1, unit0, r.kind, r.class, at2, at1, at0, len2, len1, len0, uri_at2, uri_at1, uri_at0,
        uri_len2, uri_len1, uri_len0,
    ]
}

// `b` laid over `out` from `at` on.
fn lay<const N: usize>(out: &mut [u8], at: usize, b: [u8; N])
    requires { at + N ≤ length out.old }
    ensures { out.new ≡ overwrite out.old at b.entry }
{
    out[at..at + N].copy_from_slice(&b);
}

// A record laid at `at`, and the place behind it; where it does not fit, nothing, and `at`.
pub fn put_row(out: &mut [u8], at: usize, r: Row) -> usize
    ensures { laid out.new result ≡ laid_row (laid out.old at) r }
{
    if out.len() < 16 || out.len() - 16 < at {
        return at;
    }
    lay(out, at, record_bytes(r));
    at + 16
}

// The same where the record is due, else nothing, and `at`.
pub fn put_row_if(out: &mut [u8], at: usize, due: bool, r: Row) -> usize
    ensures { laid out.new result ≡ laid_if due (laid out.old at) r }
{
    if due { put_row(out, at, r) } else { at }
}

// A record's first eight bytes as a word, but for its unit.
pub fn first_word(kind: u8, class: u8, at: u32, len: u32) -> u64
    ensures { (uri_at uri_len : ℕ) → result ≡ first_word (record { kind = kind; class = class; at = at; len = len; uri_at = uri_at; uri_len = uri_len }) }
{
    let [_, at2, at1, at0] = at.to_be_bytes();
    let [_, len2, _, _] = len.to_be_bytes();
    u64::from_be_bytes([0, 0, kind, class, at2, at1, at0, len2])
}

// What its unit adds to them.
pub fn unit_word(unit: u32) -> u64
    ensures { result ≡ unit_word unit }
{
    let [_, _, unit1, unit0] = unit.to_be_bytes();
    u64::from_be_bytes([unit1, unit0, 0, 0, 0, 0, 0, 0])
}

// Its last eight bytes.
pub fn last_word(len: u32, uri_at: u32, uri_len: u32) -> u64
    ensures { (kind class at : ℕ) → result ≡ last_word (record { kind = kind; class = class; at = at; len = len; uri_at = uri_at; uri_len = uri_len }) }
{
    let [_, _, len1, len0] = len.to_be_bytes();
    let [_, uri_at2, uri_at1, uri_at0] = uri_at.to_be_bytes();
    let [_, uri_len2, uri_len1, uri_len0] = uri_len.to_be_bytes();
    u64::from_be_bytes([
        len1, len0, uri_at2, uri_at1, uri_at0, uri_len2, uri_len1, uri_len0,
    ])
}

// A word's eight bytes laid at `at`.
fn put8(out: &mut [u8], at: usize, w: u64)
    requires { at + 8 ≤ length out.old }
    ensures { out.new ≡ overwrite out.old at (bytes8 w) }
{
    lay(out, at, w.to_be_bytes());
}

// The j-th row of an array of words laid at `at`, with what the unit adds.
fn put_kept(out: &mut [u8], at: usize, words: &[u64; 82], j: usize, unit: u64)
    requires { (j < 33) × (at + 16 ≤ length out.old) × (get_or words.now (2 * j) 0 + unit < 2 ^ 64) }
    ensures { out.new ≡ overwrite out.old at (words_row words.now unit j) }
{
    put8(out, at, words[2 * j] + unit);
    put8(out, at + 8, words[2 * j + 1]);
}

// The first n rows of an array of words laid from `at` on, with what the unit adds.
pub fn put_words(out: &mut [u8], at: usize, words: &[u64; 82], n: usize, unit: u64)
    requires { (n ≤ 33) × (at + 16 * n ≤ length out.old) × ((j : ℕ) → j < n → get_or words.now (2 * j) 0 + unit < 2 ^ 64) }
    ensures { out.new ≡ overwrite out.old at (gather (words_row words.now unit) (tabulate (λ (j : ℕ). j) 0 n)) }
{
    for j in 0..n {
        put_kept(out, at + 16 * j, words, j, unit);
    }
}

// Two rows of an array of words, the j-th and the next, laid at `at`, with what the unit adds.
pub fn put_pair(out: &mut [u8], at: usize, words: &[u64; 82], j: usize, unit: u64)
    requires { (j + 2 ≤ 33) × (at + 32 ≤ length out.old) × (get_or words.now (2 * j) 0 + unit < 2 ^ 64) × (get_or words.now (2 * j + 2) 0 + unit < 2 ^ 64) }
    ensures { out.new ≡ overwrite out.old at (gather (words_row words.now unit) (tabulate (λ (i : ℕ). i) j 2)) }
{
    put_kept(out, at, words, j, unit);
    put_kept(out, at + 16, words, j + 1, unit);
}
