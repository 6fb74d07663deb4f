// Open levels: their names, classes, URIs and strands, and their counts of bindings.
ghost use Rattle.std.specs.Prelude.{◌≡◌, map, ℕ, ◌+◌, ◌*◌, ◌<◌, eqb, length, get_or};
ghost use Rattle.laws.specs.Lists.{all, tabulate};
ghost use Rattle.table.specs.Table.{table_of};
ghost use Rattle.reader.specs.Counted.{count_of};
ghost use Rattle.strands.specs.Packed.{strand_in};
ghost use Rattle.strands.specs.Levels.{level_names, level_spaces, level_strands};
ghost use Rattle.coherence.specs.Checks.{class_fits, strand_fits, strands_fit, level_fits};

use crate::STRANDS;
use crate::names::{inside, name_fits};
use reader::{Scope, Span};
use strands::LEVELS;
use strands::levels::{count_at, name_at, owned_at, space_at};
use table::Header;
use table::uris::place_of;

// How many URIs stand whole in the table.
pub fn listed_in(table: &[u8], header: Header) -> u8
    ensures { result ≡ length (table_of table.now header).uris }
{
    for n in (0..header.namespaces).rev() {
        if place_of(table, header, n + 1).is_some() {
            return n + 1;
        }
    }
    0
}

fn class_fits(listed: u8, class: usize) -> bool
    ensures { result ≡ class_fits listed class }
{
    class <= usize::from(listed) || class == 254 || class == 255
}

// A strand's mode below modes, its target below units, and one that validates has a target.
fn strand_fits(w: u32, modes: u8, units: usize) -> bool
    ensures { result ≡ strand_fits modes units (strand_in w) }
{
    let aimed = w / 256 % 2 == 1;
    let target = (w / 512 % 65536) as usize;
    w % 32 < u32::from(modes)
        && if aimed {
            target < units
        } else {
            w / 32 % 4 < 2
        }
}

fn strands_fit(words: &[u32], modes: u8, units: usize) -> bool
    ensures { result ≡ all (strand_fits modes units) (map strand_in words.now) }
{
    words.iter().all(|w| strand_fits(*w, modes, units))
}

// Has the k-th level strands, no more than there can be, and do they fit?
fn level_strands_fit(levels: &[u32; LEVELS], k: usize, modes: u8, units: usize) -> bool
    requires { k < 64 }
    ensures { result ≡ strands_fit modes units (level_strands levels.now) k (get_or (level_spaces levels.now) (4 * k + 3) 0) }
{
    let n = count_at(levels, k);
    let from = 24 * k + 8;
    (1..=STRANDS).contains(&n) && strands_fit(&levels[from..from + n], modes, units)
}

// Does the k-th level fit?
fn level_fits(
    scene: &[u8],
    listed: u8,
    modes: u8,
    units: usize,
    levels: &[u32; LEVELS],
    k: usize,
) -> bool
    ensures { result ≡ level_fits scene.now listed modes units (level_names levels.now) (level_spaces levels.now) (level_strands levels.now) k }
{
    if Scope::DEPTH <= k {
        return false;
    }
    let at = space_at(levels, k, 1) as usize;
    let len = space_at(levels, k, 2) as usize;
    name_fits(scene, name_at(levels, k))
        && class_fits(listed, space_at(levels, k, 0) as usize)
        && inside(scene, Span { at, len })
        && level_strands_fit(levels, k, modes, units)
}

// Do the first so many levels fit?
pub fn levels_fit(
    scene: &[u8],
    listed: u8,
    modes: u8,
    units: usize,
    levels: &[u32; LEVELS],
    depth: usize,
) -> bool
    ensures { result ≡ all (level_fits scene.now listed modes units (level_names levels.now) (level_spaces levels.now) (level_strands levels.now)) (tabulate (λ (k : ℕ). k) 0 depth) }
{
    (0..depth).all(|k| level_fits(scene, listed, modes, units, levels, k))
}

// How many bindings the k-th level has.
fn count_in(levels: &[u32; LEVELS], k: usize) -> usize
    ensures { result ≡ get_or (level_names levels.now) (3 * k + 2) 0 }
{
    if k < Scope::DEPTH {
        owned_at(levels, k)
    } else {
        0
    }
}

// Do the levels' counts of bindings add up?
pub fn counts_add_up(levels: &[u32; LEVELS], depth: usize, bound: usize) -> bool
    ensures { result ≡ eqb (count_of (level_names levels.now) depth) bound }
{
    let mut left = bound;
    for k in 0..depth {
        let Some(rest) = left.checked_sub(count_in(levels, k)) else {
            return false;
        };
        left = rest;
    }
    left == 0
}
