// Ask first, then commit, of a session's numbers and arrays: what a step would come to; a step where the session is the one that was asked about.
#![tactic(auto)]

ghost use Rattle.std.specs.Prelude.{◌≡◌, true, false, ◌&&◌, ◌≤◌, ℕ, length, List};
ghost use Rattle.table.specs.Table.{table_of, decode, header_of, standard};
ghost use Rattle.table.specs.Judge.{Accepted};
ghost use Rattle.strands.specs.Levels.{level_free, level_spaces};
ghost use Rattle.sessions.specs.Sessions.{session_at};
ghost use Rattle.sessions.specs.Coherence.{coherent};
ghost use Rattle.sessions.specs.Stepping.{answered, plan_of};
ghost use Rattle.sessions.specs.Turns.{turn_answer, weighed, advanced_in};
ghost use Rattle.equality.specs.Checks.{within_arrays};
ghost use Rattle.sessions.specs.Asking.{holds_same, ask_answer, step_where};

use advances::{advance_in, none_taken};
use attributes::held::put_classes;
use equality::same_arrays;
use index::load;
use judging::judge;
use reader::Scope;
use reader::bindings::put_keys;
use sessions::checks::coherent;
use sessions::{Advanced, BINDINGS, Head, LONGEST, Scratch, Turn};
use steps::weighed_step;
use strands::LEVELS;
use table::words::header_of;
use table::{Answer, Header};

// What the next event of a coherent session comes to, its records counted. The arrays are those behind it.
pub fn asked_step(
    table: &[u8],
    header: Header,
    scene: &[u8],
    head: Head,
    levels: &mut [u32; LEVELS],
    bindings: &mut [u32; 4 * BINDINGS],
) -> Turn
    requires { (Accepted table.now ≡ true) × (header ≡ header_of table.now) × (length scene.now ≤ 16777215) × (coherent (table_of table.now header) scene.now (session_at head levels.old bindings.old) ≡ true) }
    ensures { turn_answer result ≡ (weighed (plan_of (decode table.now) scene.now (session_at head levels.old bindings.old)) (session_at head levels.old bindings.old)).answer }
{
    let index = load(table, header);
    let mut known: [u64; 2 * Scope::KNOWN] = [0; 2 * Scope::KNOWN];
    let opened: &[u32] = bindings;
    put_keys(scene, opened, head.bound, 0, &mut known);
    put_classes(table, header, scene, opened, head.bound, 0, &mut known);
    let mut scratch = Scratch::new();
    weighed_step(
        table,
        &index,
        scene,
        head,
        levels,
        bindings,
        &mut known,
        &mut scratch,
    )
}

// An answer without an event.
fn counted(number: u8, place: usize, records: usize) -> Answer
    ensures { result ≡ answered number place 0 records }
{
    Answer {
        number,
        place,
        events: 0,
        records,
    }
}

// What a step of a session, whose numbers and arrays are handed in, would answer with an output that suffices.
pub fn ask_in(
    table: &[u8],
    scene: &[u8],
    head: Head,
    mut levels: [u32; LEVELS],
    mut bindings: [u32; 4 * BINDINGS],
) -> Answer
    ensures { result ≡ ask_answer standard table.now scene.now (session_at head levels bindings) }
{
    let judged = judge(table);
    if judged.number != 0 {
        return counted(judged.number, judged.place, 0);
    }
    if LONGEST < scene.len() {
        return counted(7, 0, 0);
    }
    let header = header_of(table);
    if !coherent(table, header, scene, head, &levels, &bindings) {
        return counted(20, 0, 0);
    }
    let turn = asked_step(table, header, scene, head, &mut levels, &mut bindings);
    counted(turn.number, turn.place, turn.records)
}

// Do two sessions hold the same, of which the first has no more levels, bindings and strands than its arrays have places for?
pub fn same_session(
    head: Head,
    levels: &[u32; LEVELS],
    bindings: &[u32; 4 * BINDINGS],
    other: Head,
    other_levels: &[u32; LEVELS],
    other_bindings: &[u32; 4 * BINDINGS],
) -> bool
    ensures { result ≡ (within_arrays head.depth head.bound (level_spaces levels.now) && holds_same (session_at head levels.now bindings.now) (session_at other other_levels.now other_bindings.now)) }
{
    head == other
        && same_arrays(
            head.depth,
            head.bound,
            levels,
            bindings,
            other_levels,
            other_bindings,
        )
}

// A commit that is no step: 30 behind the numbers that go before it.
fn withheld(
    table: &[u8],
    scene: &[u8],
    head: Head,
    levels: &[u32; LEVELS],
    bindings: &[u32; 4 * BINDINGS],
) -> Advanced
    ensures { (out : List ℕ) → (
        let z = session_at head levels.now bindings.now in
        advanced_in result levels.now bindings.now out
        ≡ step_where false standard table.now scene.now z out
        ) }
{
    let judged = judge(table);
    if judged.number != 0 {
        return none_taken(judged.number, judged.place, head);
    }
    if LONGEST < scene.len() {
        return none_taken(7, 0, head);
    }
    if !coherent(table, header_of(table), scene, head, levels, bindings) {
        return none_taken(20, 0, head);
    }
    none_taken(30, 0, head)
}

// A step of a session whose numbers are handed in and whose arrays are lent, where it is the one that was asked about; else 30.
pub fn commit_in(
    same: bool,
    table: &[u8],
    scene: &[u8],
    head: Head,
    levels: &mut [u32; LEVELS],
    bindings: &mut [u32; 4 * BINDINGS],
    out: &mut [u8],
) -> Advanced
    ensures out_after { let z = session_at head levels.old bindings.old in
        advanced_in result levels.new bindings.new out.new
        ≡ step_where same standard table.now scene.now z out.old }
    ensures levels_unchanged { level_free levels.new ≡ level_free levels.old }
{
    if same {
        advance_in(table, scene, head, levels, bindings, 1, out)
    } else {
        withheld(table, scene, head, levels, bindings)
    }
}
