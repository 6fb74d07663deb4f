// Plain bytes passed over, eight at a time.
ghost use Rattle.std.specs.Prelude.{◌≡◌, ℕ, ◌≤◌, true, take};
ghost use Rattle.laws.specs.Lists.{all};
ghost use Rattle.lanes.specs.Words.{digits};
ghost use Rattle.lanes.specs.Plain.{is_plain, plain_bytes, Clear};

use crate::word_at;

// The high bit of the first byte of w that is not plain, and of no byte before it; behind it any. Of a byte x, x - 20 has the high bit where x is
// below 20, (x ^ c) - 1 where x is c, and x from 80 on. Only a byte that is not plain borrows, and only from those behind it.
fn special_bits(w: u64, quote: u8) -> u64
    ensures { (k : ℕ) → Clear k result → all (is_plain quote) (take k (digits 8 w)) ≡ true }
{
    let quotes = u64::from(quote) * 0x0101010101010101;
    let a = w.wrapping_sub(0x2020202020202020);
    let b = (w ^ quotes).wrapping_sub(0x0101010101010101);
    let c = (w ^ 0x2626262626262626).wrapping_sub(0x0101010101010101);
    let d = (w ^ 0x3C3C3C3C3C3C3C3C).wrapping_sub(0x0101010101010101);
    let e = (w ^ 0x3E3E3E3E3E3E3E3E).wrapping_sub(0x0101010101010101);
    (a | b | c | d | e | w) & 0x8080808080808080
}

// How many of eight bytes stand before the first that has a bit.
fn bytes_before(bits: u64) -> usize
    ensures { (result ≤ 8) × Clear result bits }
{
    (bits.trailing_zeros() / 8) as usize
}

// A place from at on: the bytes up to it are plain.
pub fn plain_end(s: &[u8], at: usize, quote: u8) -> usize
    ensures { (at ≤ result) × (plain_bytes s.now quote at result ≡ true) }
{
    if s.len() < 8 {
        return at;
    }
    let last = s.len() - 8;
    let mut i = at;
    while i <= last {
        let bits = special_bits(word_at(s, i), quote);
        if bits != 0 {
            return i + bytes_before(bits);
        }
        i += 8;
    }
    i
}
