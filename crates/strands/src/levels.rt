// The numbers of an open level, 24 to a level in one array: its name's place and length, how many bindings it has; its class, its URI's place and length, how many strands it has; one that is free; its sixteen strands.
ghost use Rattle.std.specs.Prelude.{◌≡◌, ◌+◌, ◌*◌, ◌<◌, get_or};
ghost use Rattle.reader.specs.Scope.{name_in};
ghost use Rattle.strands.specs.Levels.{level_names, level_spaces, level_strands};

use crate::LEVELS;
use reader::Span;

// The k-th number of a level.
fn number_at(levels: &[u32; LEVELS], level: usize, k: usize) -> u32
    requires { (level < 64) × (k < 24) }
    ensures { result ≡ get_or levels.now (24 * level + k) 0 }
{
    levels[24 * level + k]
}

// The name of a level.
pub fn name_at(levels: &[u32; LEVELS], level: usize) -> Span
    requires { level < 64 }
    ensures { result ≡ name_in (level_names levels.now) level }
{
    Span {
        at: number_at(levels, level, 0) as usize,
        len: number_at(levels, level, 1) as usize,
    }
}

// How many bindings a level has.
pub fn owned_at(levels: &[u32; LEVELS], level: usize) -> usize
    requires { level < 64 }
    ensures { result ≡ get_or (level_names levels.now) (3 * level + 2) 0 }
{
    number_at(levels, level, 2) as usize
}

// A number of a level's space: 0 its class, 1 and 2 its URI's place and length, 3 how many strands it has.
pub fn space_at(levels: &[u32; LEVELS], level: usize, k: usize) -> u32
    requires { (level < 64) × (k < 4) }
    ensures { result ≡ get_or (level_spaces levels.now) (4 * level + k) 0 }
{
    number_at(levels, level, 3 + k)
}

// How many strands a level has.
pub fn count_at(levels: &[u32; LEVELS], level: usize) -> usize
    requires { level < 64 }
    ensures { result ≡ get_or (level_spaces levels.now) (4 * level + 3) 0 }
{
    space_at(levels, level, 3) as usize
}

// The k-th strand of a level.
pub fn strand_at(levels: &[u32; LEVELS], level: usize, k: usize) -> u32
    requires { (level < 64) × (k < 16) }
    ensures { result ≡ get_or (level_strands levels.now) (16 * level + k) 0 }
{
    number_at(levels, level, 8 + k)
}
