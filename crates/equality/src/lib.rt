// Do two sessions' arrays hold the same? Places past the counts do not count.
#![tactic(auto)]

mod levels;

ghost use Rattle.std.specs.Prelude.{◌≡◌, ◌&&◌};
ghost use Rattle.strands.specs.Levels.{level_names, level_spaces, level_strands};
ghost use Rattle.equality.specs.Checks.{within_arrays, arrays_same};

use crate::levels::{same_levels, strands_within};
use reader::Scope;
use strands::LEVELS;

// Have so many levels, bindings and strands of each level places in the arrays?
fn within_arrays(depth: usize, bound: usize, levels: &[u32; LEVELS]) -> bool
    ensures { result ≡ within_arrays depth bound (level_spaces levels.now) }
{
    depth <= Scope::DEPTH && bound <= Scope::BINDINGS && strands_within(levels, depth)
}

// Are the first so many levels and bindings there, and the same as the others'?
pub fn same_arrays(
    depth: usize,
    bound: usize,
    levels: &[u32; LEVELS],
    bindings: &[u32; 4 * Scope::BINDINGS],
    other_levels: &[u32; LEVELS],
    other_bindings: &[u32; 4 * Scope::BINDINGS],
) -> bool
    ensures { result ≡ (within_arrays depth bound (level_spaces levels.now) && arrays_same depth bound (level_names levels.now) bindings.now (level_spaces levels.now) (level_strands levels.now) (level_names other_levels.now) other_bindings.now (level_spaces other_levels.now) (level_strands other_levels.now)) }
{
    within_arrays(depth, bound, levels)
        && bindings[..4 * bound] == other_bindings[..4 * bound]
        && same_levels(levels, other_levels, depth)
}
