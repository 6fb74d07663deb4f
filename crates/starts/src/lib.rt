// A start as it comes next: its tag read, 21 and 22, what it makes decided.
#![tactic(auto)]

mod decisions;
mod readings;

ghost use Rattle.std.specs.Prelude.{◌≡◌, ◌+◌, ◌≤◌, length};
ghost use Rattle.table.specs.Table.{decode};
ghost use Rattle.lexer.specs.Attrs.{attrs_in};
ghost use Rattle.lexer.specs.Tags.{tag_at};
ghost use Rattle.reader.specs.Namespaces.{declarations_of};
ghost use Rattle.reader.specs.Scope.{opens_of};
ghost use Rattle.reader.specs.Events.{start_read};
ghost use Rattle.sessions.specs.Sessions.{session_at};
ghost use Rattle.sessions.specs.Stepping.{start_plan, plan_by};
ghost use Rattle.sessions.specs.Turns.{LoopReady, Beside, Met, PlannedAs, start_of, session_by};

use crate::decisions::decide;
use crate::readings::read_start;
use attributes::held::{put_classes, space_of};
use reader::Scope;
use sessions::{BINDINGS, DEPTH, Head, Planned, Refusal, Scratch, Started};
use strands::LEVELS;
use table::words::header_of;

// A start with its namespaces: 21, 22, and what it makes.
fn plan_element(
    table: &[u8],
    index: &[u32; 256],
    scene: &[u8],
    started: Started,
    head: Head,
    levels: &[u32; LEVELS],
    bindings: &[u32; 4 * BINDINGS],
    known: &mut [u64; 2 * Scope::KNOWN],
    scratch: &mut Scratch,
) -> Result<Planned, Refusal>
    requires { LoopReady table.now index.now scene.now known.old (session_at head levels.now bindings.now) × Met scene.now bindings.now scratch.old.own scratch.old.attrs scratch.old.codes known.old head.bound started }
    ensures planned { let s = scene.now in
        let z = session_at head levels.now bindings.now in
        let e = start_of s bindings.now scratch.old.own scratch.old.attrs scratch.old.codes started.at started.tag started.found in
        let ds = declarations_of s (attrs_in scratch.old.attrs started.tag.count) in
        let p = start_plan (decode table.now) s z e ds started.tag.next in
        PlannedAs table.now index.now s z scratch.old.own scratch.new.words scratch.new.schemas scratch.new.attributes result p
        × Beside table.now s known.new z
        × Beside table.now s known.new (session_by p z) }
    ensures own_unchanged { scratch.new.own ≡ scratch.old.own }
    ensures attrs_unchanged { (scratch.new.attrs ≡ scratch.old.attrs) × (scratch.new.codes ≡ scratch.old.codes) }
{
    let at = started.at;
    let owned = started.owned;
    if DEPTH <= head.depth {
        return Err(Refusal {
            number: 21,
            place: at,
        });
    }
    if BINDINGS < head.bound + owned {
        return Err(Refusal {
            number: 22,
            place: at,
        });
    }
    if owned != 0 {
        put_classes(
            table,
            header_of(table),
            scene,
            &scratch.own,
            owned,
            head.bound,
            known,
        );
    }
    let found = started.found;
    let placing = space_of(&scratch.own, bindings, head.bound, known, found);
    let decided = decide(
        index, scene, started, placing, head, bindings, known, levels, scratch,
    )?;
    Ok(Planned::Start {
        started,
        placing,
        decided,
    })
}

// The start whose < stands at a place.
pub fn plan_start(
    table: &[u8],
    index: &[u32; 256],
    scene: &[u8],
    at: usize,
    head: Head,
    levels: &[u32; LEVELS],
    bindings: &[u32; 4 * BINDINGS],
    known: &mut [u64; 2 * Scope::KNOWN],
    scratch: &mut Scratch,
) -> Result<Planned, Refusal>
    requires { LoopReady table.now index.now scene.now known.old (session_at head levels.now bindings.now) × (at + 1 ≤ length scene.now) }
    ensures { let s = scene.now in
        let z = session_at head levels.now bindings.now in
        let p = plan_by (decode table.now) s z (start_read s at (opens_of z.scope) (tag_at s (at + 1)) (tag_at s (at + 1)).answer) in
        PlannedAs table.now index.now s z scratch.new.own scratch.new.words scratch.new.schemas scratch.new.attributes result p
        × Beside table.now s known.new z
        × Beside table.now s known.new (session_by p z) }
{
    let started = read_start(scene, at, head, bindings, known, scratch)?;
    plan_element(
        table, index, scene, started, head, levels, bindings, known, scratch,
    )
}
