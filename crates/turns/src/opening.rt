// A start that comes next: written and laid down, or laid down alone.
ghost use Rattle.std.specs.Prelude.{◌≡◌, ℕ, ◌+◌, ◌*◌, ◌≤◌, ◌<◌, List, []};
ghost use Rattle.table.specs.Table.{header_of};
ghost use Rattle.reader.specs.Stored.{narrowed};
ghost use Rattle.attributes.specs.Attributes.{sections_in, attributes_in};
ghost use Rattle.strands.specs.Levels.{level_free};
ghost use Rattle.sessions.specs.Sessions.{session_at};
ghost use Rattle.sessions.specs.Stepping.{Plan, planned};
ghost use Rattle.openings.specs.Openings.{Openable};
ghost use Rattle.sessions.specs.Turns.{opened_head, TurnReady, StartAs, Roomy, step_in, weighed};

use crate::stop;
use attributes::Placing;
use openings::Decided;
use openings::levels::push_start;
use openings::writing::{begun_of, write_start};
use sessions::{BINDINGS, Head, Scratch, Started, Turn};
use strands::LEVELS;

// The session's numbers behind a start.
fn opened_head(head: Head, place: usize, empty: bool, units: usize, owned: usize) -> Head
    requires { (head.depth < 64) × (head.bound + owned ≤ 64) }
    ensures { result ≡ opened_head head place empty units owned }
{
    Head {
        place,
        units,
        closed: false,
        awaited: empty,
        depth: head.depth + 1,
        bound: head.bound + owned,
    }
}

// A start laid down, its records counted.
pub fn lay_level(
    started: Started,
    placing: Placing,
    decided: Decided,
    scratch: &Scratch,
    head: Head,
    levels: &mut [u32; LEVELS],
    bindings: &mut [u32; 4 * BINDINGS],
) -> Turn
    requires { Roomy head started.owned × (decided.strands ≤ 16) }
    ensures bindings_after { (table index s schemas attributes : List ℕ) (p : Plan) → (
        let z = session_at head levels.old bindings.old in
        TurnReady table (header_of table) index s z
        → StartAs table index s z scratch.now.own scratch.now.words schemas attributes started placing decided p
        → step_in result levels.new bindings.new [] ≡ weighed p z
        ) }
    ensures levels_unchanged { level_free levels.new ≡ level_free levels.old }
{
    let tag = started.tag;
    let owned = started.owned;
    push_start(
        tag,
        placing,
        &scratch.own,
        owned,
        &scratch.words,
        decided.strands,
        head.depth,
        head.bound,
        levels,
        bindings,
    );
    Turn {
        number: 0,
        place: tag.next,
        records: decided.records,
        head: opened_head(head, tag.next, tag.empty, decided.units, owned),
    }
}

// A start: 25, or its records and what it opens.
pub fn open_level(
    index: &[u32; 256],
    started: Started,
    placing: Placing,
    decided: Decided,
    scratch: &mut Scratch,
    head: Head,
    levels: &mut [u32; LEVELS],
    bindings: &mut [u32; 4 * BINDINGS],
    out: &mut [u8],
) -> Turn
    requires { Roomy head started.owned × Openable index.now (attributes_in scratch.old.attributes) (sections_in scratch.old.attributes) scratch.old.words scratch.old.schemas (narrowed started.at) head.units decided }
    ensures by_index { (table s : List ℕ) (p : Plan) → (
        let z = session_at head levels.old bindings.old in
        TurnReady table (header_of table) index.now s z
        → StartAs table index.now s z scratch.old.own scratch.old.words scratch.old.schemas scratch.old.attributes started placing decided p
        → step_in result levels.new bindings.new out.new ≡ planned p z out.old
        ) }
    ensures levels_unchanged { level_free levels.new ≡ level_free levels.old }
    ensures tag_unchanged { (scratch.new.attrs ≡ scratch.old.attrs) × (scratch.new.codes ≡ scratch.old.codes) × (scratch.new.own ≡ scratch.old.own) }
    ensures decided_unchanged { (scratch.new.attributes ≡ scratch.old.attributes) × (scratch.new.words ≡ scratch.old.words) × (scratch.new.schemas ≡ scratch.old.schemas) }
{
    let at = started.at;
    if out.len() / 16 < decided.records {
        return stop(25, at, head);
    }
    write_start(
        index,
        &scratch.attributes,
        &scratch.words,
        &scratch.schemas,
        decided,
        head.units,
        begun_of(at, started.tag, placing),
        &mut scratch.rows,
        out,
    );
    lay_level(started, placing, decided, scratch, head, levels, bindings)
}
