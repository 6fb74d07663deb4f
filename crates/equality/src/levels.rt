// Open levels and their strands.
ghost use Rattle.std.specs.Prelude.{◌≡◌, map, true, ℕ, ◌+◌, ◌*◌, ◌≤◌, ◌<◌, get_or, leb};
ghost use Rattle.laws.specs.Lists.{all, tabulate};
ghost use Rattle.reader.specs.Spans.{span};
ghost use Rattle.strands.specs.Packed.{strand_in};
ghost use Rattle.strands.specs.Levels.{level_names, level_spaces, level_strands};
ghost use Rattle.equality.specs.Same.{same_each, same_strand, same_level, held_level};

use reader::Span;
use strands::LEVELS;
use strands::levels::{count_at, name_at, owned_at, space_at};

// Has each of the first so many levels at most sixteen strands?
pub fn strands_within(levels: &[u32; LEVELS], depth: usize) -> bool
    requires { depth ≤ 64 }
    ensures { result ≡ all (λ (k : ℕ). leb (get_or (level_spaces levels.now) (4 * k + 3) 0) 16) (tabulate (λ (k : ℕ). k) 0 depth) }
{
    for k in 0..depth {
        if 16 < count_at(levels, k) {
            return false;
        }
    }
    true
}

// Do two numbers mean the same strand? Without a target the bits of one do not count.
fn same_strand(a: u32, b: u32) -> bool
    ensures { result ≡ same_strand (strand_in a) (strand_in b) }
{
    let validate = (1 < a / 32 % 4) & (1 < b / 32 % 4);
    let action = validate | (a / 32 % 4 == b / 32 % 4);
    let aimless = (a / 256 % 2 == 0) | (a / 512 % 65536 == b / 512 % 65536);
    let target = (a / 256 % 2 == b / 256 % 2) & aimless;
    let here = a / 128 % 2 == b / 128 % 2;
    (a % 32 == b % 32) & (action & (target & here))
}

// Do these mean the same strands?
fn same_strands(a: &[u32], b: &[u32]) -> bool
    ensures { result ≡ same_each same_strand (map strand_in a.now) (map strand_in b.now) }
{
    a.len() == b.len() && a.iter().zip(b).all(|(x, y)| same_strand(*x, *y))
}

// The span of a level's URI.
fn uri_at(levels: &[u32; LEVELS], k: usize) -> Span
    requires { k < 64 }
    ensures { result ≡ span (get_or (level_spaces levels.now) (4 * k + 1) 0) (get_or (level_spaces levels.now) (4 * k + 2) 0) }
{
    Span {
        at: space_at(levels, k, 1) as usize,
        len: space_at(levels, k, 2) as usize,
    }
}

// Are the k-th levels the same?
fn same_level(levels: &[u32; LEVELS], other: &[u32; LEVELS], k: usize) -> bool
    requires { (k < 64) × (get_or (level_spaces levels.now) (4 * k + 3) 0 ≤ 16) }
    ensures { result ≡ same_level (held_level (level_names levels.now) (level_spaces levels.now) (level_strands levels.now) k) (held_level (level_names other.now) (level_spaces other.now) (level_strands other.now) k) }
{
    if name_at(levels, k) != name_at(other, k) {
        return false;
    }
    if space_at(levels, k, 0) != space_at(other, k, 0) {
        return false;
    }
    if uri_at(levels, k) != uri_at(other, k) {
        return false;
    }
    if owned_at(levels, k) != owned_at(other, k) {
        return false;
    }
    let n = count_at(levels, k);
    if n != count_at(other, k) {
        return false;
    }
    let at = 24 * k + 8;
    same_strands(&levels[at..at + n], &other[at..at + n])
}

// Are the first so many levels the same?
pub fn same_levels(levels: &[u32; LEVELS], other: &[u32; LEVELS], depth: usize) -> bool
    requires { (depth ≤ 64) × (all (λ (k : ℕ). leb (get_or (level_spaces levels.now) (4 * k + 3) 0) 16) (tabulate (λ (k : ℕ). k) 0 depth) ≡ true) }
    ensures { result ≡ same_each same_level (tabulate (held_level (level_names levels.now) (level_spaces levels.now) (level_strands levels.now)) 0 depth) (tabulate (held_level (level_names other.now) (level_spaces other.now) (level_strands other.now)) 0 depth) }
{
    for k in 0..depth {
        if !same_level(levels, other, k) {
            return false;
        }
    }
    true
}
