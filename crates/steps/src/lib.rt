// One step of a coherent session under an accepted table: what comes next, and then its turn, written or counted.
#![tactic(auto)]

ghost use Rattle.std.specs.Prelude.{◌≡◌, []};
ghost use Rattle.table.specs.Table.{decode};
ghost use Rattle.strands.specs.Levels.{level_free};
ghost use Rattle.sessions.specs.Sessions.{session_at};
ghost use Rattle.sessions.specs.Stepping.{plan_of, planned};
ghost use Rattle.sessions.specs.Turns.{LoopReady, Beside, PlannedAs, step_in, session_by, weighed};

use lexer::Begin;
use misc::begins::begin_at;
use reader::Scope;
use sessions::{BINDINGS, Head, Planned, Refusal, Scratch, Turn};
use starts::plan_start;
use strands::LEVELS;
use turns::ends::{end_event, text_event, weigh_end, weigh_text};
use turns::opening::{lay_level, open_level};
use turns::planning::{plan_awaited, plan_end, plan_text};
use turns::stop;

// What a coherent session does next: the first half of a step. Nothing of the session is changed.
fn plan_event(
    table: &[u8],
    index: &[u32; 256],
    scene: &[u8],
    head: Head,
    levels: &[u32; LEVELS],
    bindings: &[u32; 4 * BINDINGS],
    known: &mut [u64; 2 * Scope::KNOWN],
    scratch: &mut Scratch,
) -> Result<Planned, Refusal>
    requires { LoopReady table.now index.now scene.now known.old (session_at head levels.now bindings.now) }
    ensures { let s = scene.now in
        let z = session_at head levels.now bindings.now in
        let p = plan_of (decode table.now) s z in
        PlannedAs table.now index.now s z scratch.new.own scratch.new.words scratch.new.schemas scratch.new.attributes result p
        × Beside table.now s known.new z
        × Beside table.now s known.new (session_by p z) }
{
    if head.awaited {
        return Ok(plan_awaited(scene, head, levels));
    }
    match begin_at(scene, head.place, head.depth != 0, head.closed) {
        Ok(Begin::Start(at)) => plan_start(
            table, index, scene, at, head, levels, bindings, known, scratch,
        ),
        Ok(Begin::End(at)) => plan_end(scene, at, head, levels),
        Ok(Begin::Text(at)) => plan_text(scene, at),
        Ok(Begin::Finished) => Ok(Planned::Finished),
        Err(x) => Err(Refusal::stopped(scene, x)),
    }
}

// One step of a coherent session: its records go to the output from its first byte on.
#[inline(always)]
pub fn judged_step(
    table: &[u8],
    index: &[u32; 256],
    scene: &[u8],
    head: Head,
    levels: &mut [u32; LEVELS],
    bindings: &mut [u32; 4 * BINDINGS],
    known: &mut [u64; 2 * Scope::KNOWN],
    scratch: &mut Scratch,
    out: &mut [u8],
) -> Turn
    requires { LoopReady table.now index.now scene.now known.old (session_at head levels.old bindings.old) }
    ensures fact { let z = session_at head levels.old bindings.old in
        (step_in result levels.new bindings.new out.new ≡ planned (plan_of (decode table.now) scene.now z) z out.old)
        × Beside table.now scene.now known.new (session_at result.head levels.new bindings.new) }
    ensures levels_unchanged { level_free levels.new ≡ level_free levels.old }
{
    match plan_event(table, index, scene, head, levels, bindings, known, scratch) {
        Ok(
            Planned::Start {
                started,
                placing,
                decided,
            },
        ) => open_level(
            index, started, placing, decided, scratch, head, levels, bindings, out,
        ),
        Ok(Planned::Text { at, end }) => text_event(at, end, head, levels, out),
        Ok(Planned::End { part, at, place }) => end_event(part, at, place, head, levels, out),
        Ok(Planned::Awaited { part, at }) => end_event(part, at, head.place, head, levels, out),
        Ok(Planned::Finished) => stop(9, scene.len(), head),
        Err(x) => stop(x.number, x.place, head),
    }
}

// One event of a coherent session without an output: its records counted.
pub fn weighed_step(
    table: &[u8],
    index: &[u32; 256],
    scene: &[u8],
    head: Head,
    levels: &mut [u32; LEVELS],
    bindings: &mut [u32; 4 * BINDINGS],
    known: &mut [u64; 2 * Scope::KNOWN],
    scratch: &mut Scratch,
) -> Turn
    requires { LoopReady table.now index.now scene.now known.old (session_at head levels.old bindings.old) }
    ensures { let z = session_at head levels.old bindings.old in
        (step_in result levels.new bindings.new [] ≡ weighed (plan_of (decode table.now) scene.now z) z)
        × Beside table.now scene.now known.new (session_at result.head levels.new bindings.new) }
{
    match plan_event(table, index, scene, head, levels, bindings, known, scratch) {
        Ok(
            Planned::Start {
                started,
                placing,
                decided,
            },
        ) => lay_level(started, placing, decided, scratch, head, levels, bindings),
        Ok(Planned::Text { end, .. }) => weigh_text(end, head, levels),
        Ok(Planned::End { place, .. }) => weigh_end(place, head, levels),
        Ok(Planned::Awaited { .. }) => weigh_end(head.place, head, levels),
        Ok(Planned::Finished) => stop(9, scene.len(), head),
        Err(x) => stop(x.number, x.place, head),
    }
}
