// Number 20: may this session go on with this table and scene?
ghost use Rattle.std.specs.Prelude.{◌≡◌};
ghost use Rattle.table.specs.Table.{table_of};
ghost use Rattle.sessions.specs.Sessions.{session_at};
ghost use Rattle.sessions.specs.Coherence.{coherent};
ghost use Rattle.sessions.specs.Checks.{head_fits};

use crate::{BINDINGS, DEPTH, Head, UNITS};
use coherence::arrays_fit;
use strands::LEVELS;
use table::Header;

// The place in the scene, the counts and the flags.
fn head_fits(len: usize, head: Head) -> bool
    ensures { result ≡ head_fits len head }
{
    let awaited = !head.awaited || head.depth != 0;
    let closed = !head.closed || head.depth == 0;
    head.depth <= DEPTH
        && head.bound <= BINDINGS
        && head.place <= len
        && head.units <= UNITS
        && awaited
        && closed
}

// May a session go on with this table and scene?
pub fn coherent(
    table: &[u8],
    header: Header,
    scene: &[u8],
    head: Head,
    levels: &[u32; LEVELS],
    bindings: &[u32; 4 * BINDINGS],
) -> bool
    ensures { result ≡ coherent (table_of table.now header) scene.now (session_at head levels.now bindings.now) }
{
    head_fits(scene.len(), head)
        && arrays_fit(
            table, header, scene, head.units, head.depth, head.bound, levels, bindings,
        )
}
