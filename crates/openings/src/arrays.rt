// The levels of a session, from its arrays to one and back.
ghost use Rattle.std.specs.Prelude.{◌≡◌, ◌+◌, ◌*◌, ◌≤◌, length, take, drop};
ghost use Rattle.laws.specs.Over.{overwrite};
ghost use Rattle.strands.specs.Levels.{of_each, level_names, level_spaces, level_strands, level_free};

use crate::STRANDS;
use reader::Scope;
use strands::LEVELS;

// n numbers of `from`, from the first on, laid over `to` at a place.
pub(crate) fn copy(to: &mut [u32], at: usize, from: &[u32], first: usize, n: usize)
    requires { (at + n ≤ length to.old) × (first + n ≤ length from.now) }
    ensures { to.new ≡ overwrite to.old at (take n (drop first from.now)) }
{
    to[at..at + n].copy_from_slice(&from[first..first + n]);
}

// The levels' names, spaces and strands, laid into one array.
pub fn join_levels(
    names: &[u32; 3 * Scope::DEPTH],
    spaces: &[u32; 4 * Scope::DEPTH],
    strands: &[u32; STRANDS * Scope::DEPTH],
    levels: &mut [u32; LEVELS],
)
    ensures { (level_names levels.new ≡ names.now)
        × (level_spaces levels.new ≡ spaces.now)
        × (level_strands levels.new ≡ strands.now)
        × (level_free levels.new ≡ level_free levels.old) }
{
    for k in 0..Scope::DEPTH {
        copy(levels, 24 * k, names, 3 * k, 3);
        copy(levels, 24 * k + 3, spaces, 4 * k, 4);
        copy(levels, 24 * k + 8, strands, 16 * k, 16);
    }
}

// So many numbers of each level, from one of its 24 on.
pub fn part_levels(levels: &[u32; LEVELS], wide: usize, from: usize, numbers: &mut [u32])
    requires { (from + wide ≤ 24) × (length numbers.old ≡ 64 * wide) }
    ensures { numbers.new ≡ of_each wide from levels.now }
{
    for k in 0..Scope::DEPTH {
        copy(numbers, wide * k, levels, 24 * k + from, wide);
    }
}
