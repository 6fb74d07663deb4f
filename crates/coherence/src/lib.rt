// Number 20 of a session's arrays: may these levels and bindings stand over this table and scene?
#![tactic(auto)]

mod bindings;
mod levels;
mod names;

ghost use Rattle.std.specs.Prelude.{◌≡◌};
ghost use Rattle.table.specs.Table.{table_of};
ghost use Rattle.strands.specs.Levels.{level_names, level_spaces, level_strands};
ghost use Rattle.coherence.specs.Checks.{arrays_fit};

use crate::bindings::bindings_fit;
use crate::levels::{counts_add_up, levels_fit, listed_in};
use reader::Scope;
use strands::LEVELS;
use table::Header;

// The most strands of a level.
pub const STRANDS: usize = 16;

// Do the levels' counts add up, and does each open binding and level fit?
pub fn arrays_fit(
    table: &[u8],
    header: Header,
    scene: &[u8],
    units: usize,
    depth: usize,
    bound: usize,
    levels: &[u32; LEVELS],
    bindings: &[u32; 4 * Scope::BINDINGS],
) -> bool
    ensures { result ≡ arrays_fit (table_of table.now header) scene.now units depth bound (level_names levels.now) bindings.now (level_spaces levels.now) (level_strands levels.now) }
{
    counts_add_up(levels, depth, bound)
        && bindings_fit(scene, bindings, bound)
        && levels_fit(
            scene,
            listed_in(table, header),
            header.modes,
            units,
            levels,
            depth,
        )
}
