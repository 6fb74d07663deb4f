// A session in a host's bytes: tested, read and stored.
ghost use Rattle.std.specs.Prelude.{◌≡◌, ℕ, ◌+◌, ◌*◌, ◌≤◌, ◌<◌, length, get_or, eqb};
ghost use Rattle.laws.specs.Lists.{all, tabulate};
ghost use Rattle.laws.specs.Gather.{gather};
ghost use Rattle.laws.specs.Over.{overwrite};
ghost use Rattle.strands.specs.Levels.{level_names, level_spaces, level_strands};
ghost use Rattle.sessions.specs.Sessions.{fresh_of, head_of, session_at};
ghost use Rattle.layout.specs.Layout.{session_size, word4, word8, bytes4, bytes8, strand_at, session_in, packs, holds_session, session_bytes};
ghost use Rattle.layout.specs.Parts.{head_bytes, level_words};

use sessions::Head;
use strands::LEVELS;

// A session's bytes.
pub const SESSION_SIZE: usize = 7208;

// The number in four bytes.
fn word4_at(b: &[u8], at: usize) -> u32
    requires { at + 4 ≤ length b.now }
    ensures { result ≡ word4 b.now at }
{
    u32::from_le_bytes([b[at], b[at + 1], b[at + 2], b[at + 3]])
}

// The number in eight bytes.
pub fn word8_at(b: &[u8], at: usize) -> usize
    requires { at + 8 ≤ length b.now }
    ensures { result ≡ word8 b.now at }
{
    let low = word4_at(b, at);
    let high = word4_at(b, at + 4);
    (low as usize) + (high as usize) * 4294967296
}

// The numbers from `at` on, as many as `words` has.
fn words_in(b: &[u8], at: usize, words: &mut [u32])
    requires { at + 4 * length words.old ≤ length b.now }
    ensures { words.new ≡ tabulate (λ (i : ℕ). word4 b.now (at + 4 * i)) 0 (length words.old) }
{
    for i in 0..words.len() {
        words[i] = word4_at(b, at + 4 * i);
    }
}

// The arrays of the session that the bytes hold, its levels in one.
pub fn arrays_in(b: &[u8], levels: &mut [u32; LEVELS], bindings: &mut [u32; 256])
    requires { session_size ≤ length b.now }
    ensures { let z = session_in b.now in
        (level_names levels.new ≡ z.scope.levels)
        × (bindings.new ≡ z.scope.bindings)
        × (level_spaces levels.new ≡ z.spaces)
        × (level_strands levels.new ≡ z.strands) }
{
    words_in(b, 1064, levels);
    words_in(b, 40, bindings);
}

// Its numbers.
pub fn head_in(b: &[u8]) -> Head
    requires { session_size ≤ length b.now }
    ensures { result ≡ head_of (session_in b.now) }
{
    Head {
        place: word8_at(b, 8),
        units: word8_at(b, 16),
        closed: b[1] == 1,
        awaited: b[2] == 1,
        depth: word8_at(b, 24),
        bound: word8_at(b, 32),
    }
}

// Whether a number packs a strand.
fn packs_strand(w: u32) -> bool
    ensures { result ≡ packs w }
{
    let aimed = (w / 256 % 2 == 1) & (w < 33554432);
    (w / 32 % 4 != 3) & (aimed | (w < 256))
}

// Whether the five bytes that no session uses are 0.
fn no_padding(b: &[u8]) -> bool
    requires { session_size ≤ length b.now }
    ensures { result ≡ all (λ (i : ℕ). eqb (get_or b.now i 0) 0) (tabulate (λ (i : ℕ). i) 3 5) }
{
    b[3..8].iter().all(|x| *x == 0)
}

// Whether each of n numbers, so many bytes apart, is 0. All are asked, with no early way out.
fn words_zero(b: &[u8], at: usize, step: usize, n: usize) -> bool
    requires { (j : ℕ) → j < n → at + step * j + 4 ≤ length b.now }
    ensures { result ≡ all (λ (j : ℕ). eqb (word4 b.now (at + step * j)) 0) (tabulate (λ (j : ℕ). j) 0 n) }
{
    let mut all = true;
    for j in 0..n {
        all &= word4_at(b, at + step * j) == 0;
    }
    all
}

// Whether each of n numbers from `at` on packs a strand. All are asked.
fn words_pack(b: &[u8], at: usize, n: usize) -> bool
    requires { at + 4 * n ≤ length b.now }
    ensures { result ≡ all (λ (j : ℕ). packs (word4 b.now (at + 4 * j))) (tabulate (λ (j : ℕ). j) 0 n) }
{
    let mut all = true;
    for j in 0..n {
        all &= packs_strand(word4_at(b, at + 4 * j));
    }
    all
}

// Whether each of the sixteen numbers from `at` on packs a strand. Behind the fourth they are mostly 0.
fn level_packs(b: &[u8], at: usize) -> bool
    requires { at + 64 ≤ length b.now }
    ensures { result ≡ all (λ (j : ℕ). packs (word4 b.now (at + 4 * j))) (tabulate (λ (j : ℕ). j) 0 16) }
{
    words_pack(b, at, 4) && (words_zero(b, at + 16, 4, 12) || words_pack(b, at + 16, 12))
}

fn strands_pack(b: &[u8]) -> bool
    requires { session_size ≤ length b.now }
    ensures { result ≡ all (λ (i : ℕ). packs (word4 b.now (strand_at i))) (tabulate (λ (i : ℕ). i) 0 1024) }
{
    for k in 0..64 {
        if !level_packs(b, 1064 + 96 * k + 32) {
            return false;
        }
    }
    true
}

// Whether the bytes hold a session.
pub fn holds_session(b: &[u8]) -> bool
    requires { session_size ≤ length b.now }
    ensures { result ≡ holds_session b.now }
{
    if b[0] != 1 {
        return false;
    }
    if 1 < b[1] {
        return false;
    }
    if 1 < b[2] {
        return false;
    }
    if !no_padding(b) {
        return false;
    }
    // The number of each level that is free.
    if !words_zero(b, 1092, 96, 64) {
        return false;
    }
    strands_pack(b)
}

// A number stored in four bytes.
fn put4(b: &mut [u8], at: usize, n: u32)
    requires { at + 4 ≤ length b.old }
    ensures { b.new ≡ overwrite b.old at (bytes4 n) }
{
    b[at..at + 4].copy_from_slice(&n.to_le_bytes());
}

// A number stored in eight bytes.
pub fn put8(b: &mut [u8], at: usize, n: usize)
    requires { at + 8 ≤ length b.old }
    ensures { b.new ≡ overwrite b.old at (bytes8 n) }
{
    b[at..at + 8].copy_from_slice(&n.to_le_bytes());
}

// Numbers, stored one after the other.
fn put_words(b: &mut [u8], at: usize, words: &[u32])
    requires { at + 4 * length words.now ≤ length b.old }
    ensures { b.new ≡ overwrite b.old at (gather bytes4 words.now) }
{
    for i in 0..words.len() {
        put4(b, at + 4 * i, words[i]);
    }
}

// The first forty bytes.
fn put_head(b: &mut [u8], head: Head)
    requires { 40 ≤ length b.old }
    ensures { b.new ≡ overwrite b.old 0 (head_bytes head.closed head.awaited head.place head.units head.depth head.bound) }
{
    let closed = u8::from(head.closed);
    let awaited = u8::from(head.awaited);
    b[..8].copy_from_slice(&[1, closed, awaited, 0, 0, 0, 0, 0]);
    put8(b, 8, head.place);
    put8(b, 16, head.units);
    put8(b, 24, head.depth);
    put8(b, 32, head.bound);
}

// The 96 bytes of the k-th level.
fn put_level(b: &mut [u8], k: usize, levels: &[u32])
    requires { (k < 64) × (session_size ≤ length b.old) × (length levels.now ≡ 1536) }
    ensures { b.new ≡ overwrite b.old (1064 + 96 * k) (level_words (level_names levels.now) (level_spaces levels.now) (level_strands levels.now) k) }
{
    let at = 1064 + 96 * k;
    let from = 24 * k;
    put_words(b, at, &levels[from..from + 3]);
    put_words(b, at + 12, &levels[from + 3..from + 7]);
    put4(b, at + 28, 0);
    put_words(b, at + 32, &levels[from + 8..from + 24]);
}

fn put_levels(b: &mut [u8], levels: &[u32; LEVELS])
    requires { session_size ≤ length b.old }
    ensures { b.new ≡ overwrite b.old 1064 (gather (level_words (level_names levels.now) (level_spaces levels.now) (level_strands levels.now)) (tabulate (λ (k : ℕ). k) 0 64)) }
{
    for k in 0..64 {
        put_level(b, k, levels);
    }
}

// The bytes of a session's numbers and arrays, laid over the first of `b`.
pub fn put_session(b: &mut [u8], head: Head, levels: &[u32; LEVELS], bindings: &[u32; 256])
    requires { session_size ≤ length b.old }
    ensures { b.new ≡ overwrite b.old 0 (session_bytes (session_at head levels.now bindings.now)) }
{
    put_head(b, head);
    put_words(b, 40, bindings);
    put_levels(b, levels);
}

// A fresh session's: a 1, the others 0.
pub fn put_fresh(b: &mut [u8])
    requires { session_size ≤ length b.old }
    ensures { b.new ≡ overwrite b.old 0 (session_bytes fresh_of) }
{
    b[..SESSION_SIZE].fill(0);
    b[0] = 1;
}
