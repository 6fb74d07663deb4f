// So many steps, until one's number is not 0, of any session: what is judged first, and the loop.
#![tactic(auto)]

ghost use Rattle.std.specs.Prelude.{◌≡◌, true, ◌≤◌, length};
ghost use Rattle.table.specs.Table.{header_of, standard};
ghost use Rattle.table.specs.Judge.{Accepted};
ghost use Rattle.strands.specs.Levels.{level_free};
ghost use Rattle.sessions.specs.Sessions.{session_at};
ghost use Rattle.sessions.specs.Coherence.{coherent};
ghost use Rattle.sessions.specs.Stepping.{answered, advance_of};
ghost use Rattle.sessions.specs.Turns.{LoopReady, advanced_answer, advanced_in};

use attributes::held::put_classes;
use index::load;
use judging::judge;
use reader::Scope;
use reader::bindings::put_keys;
use sessions::checks::coherent;
use sessions::{Advanced, BINDINGS, Head, LONGEST, Scratch};
use steps::judged_step;
use strands::LEVELS;
use table::words::header_of;
use table::{Answer, Header};

// Such steps until one's number is not 0 or there were so many. Each is lent the rest of the output.
#[inline(always)]
fn judged_steps(
    table: &[u8],
    index: &[u32; 256],
    scene: &[u8],
    from: Head,
    levels: &mut [u32; LEVELS],
    bindings: &mut [u32; 4 * BINDINGS],
    known: &mut [u64; 2 * Scope::KNOWN],
    most: usize,
    out: &mut [u8],
) -> Advanced
    requires { LoopReady table.now index.now scene.now known.old (session_at from levels.old bindings.old) }
    ensures out_after { let z = session_at from levels.old bindings.old in
        advanced_in result levels.new bindings.new out.new
        ≡ advance_of standard most table.now scene.now z out.old }
    ensures levels_unchanged { level_free levels.new ≡ level_free levels.old }
{
    let mut scratch = Scratch::new();
    let mut head = from;
    let mut used = 0;
    let mut records = 0;
    for events in 0..most {
        let turn = judged_step(
            table,
            index,
            scene,
            head,
            levels,
            bindings,
            known,
            &mut scratch,
            &mut out[used..],
        );
        let number = turn.number;
        let last = turn.head;
        if number != 0 {
            return Advanced {
                number,
                place: turn.place,
                events,
                records,
                head: last,
            };
        }
        head = last;
        used += 16 * turn.records;
        records += turn.records;
    }
    Advanced {
        number: 0,
        place: head.place,
        events: most,
        records,
        head,
    }
}

// The same of any session: 20 first.
fn steps_from(
    table: &[u8],
    header: Header,
    scene: &[u8],
    from: Head,
    levels: &mut [u32; LEVELS],
    bindings: &mut [u32; 4 * BINDINGS],
    most: usize,
    out: &mut [u8],
) -> Advanced
    requires { (Accepted table.now ≡ true) × (header ≡ header_of table.now) × (length scene.now ≤ 16777215) × (1 ≤ most) }
    ensures out_after { let z = session_at from levels.old bindings.old in
        advanced_in result levels.new bindings.new out.new
        ≡ advance_of standard most table.now scene.now z out.old }
    ensures levels_unchanged { level_free levels.new ≡ level_free levels.old }
{
    if !coherent(table, header, scene, from, levels, bindings) {
        return Advanced {
            number: 20,
            place: 0,
            events: 0,
            records: 0,
            head: from,
        };
    }
    let index = load(table, header);
    let mut known: [u64; 2 * Scope::KNOWN] = [0; 2 * Scope::KNOWN];
    let opened: &[u32] = bindings;
    put_keys(scene, opened, from.bound, 0, &mut known);
    put_classes(table, header, scene, opened, from.bound, 0, &mut known);
    judged_steps(
        table, &index, scene, from, levels, bindings, &mut known, most, out,
    )
}

// What some steps answer.
pub fn answer_of(advanced: Advanced) -> Answer
    ensures { result ≡ advanced_answer advanced }
{
    Answer {
        number: advanced.number,
        place: advanced.place,
        events: advanced.events,
        records: advanced.records,
    }
}

// No step taken: the session's numbers stay.
pub fn none_taken(number: u8, place: usize, head: Head) -> Advanced
    ensures { (advanced_answer result ≡ answered number place 0 0) × (result.head ≡ head) }
{
    Advanced {
        number,
        place,
        events: 0,
        records: 0,
        head,
    }
}

// At most so many steps of a session whose numbers are handed in and whose arrays are lent.
pub fn advance_in(
    table: &[u8],
    scene: &[u8],
    head: Head,
    levels: &mut [u32; LEVELS],
    bindings: &mut [u32; 4 * BINDINGS],
    most: usize,
    out: &mut [u8],
) -> Advanced
    ensures out_after { let z = session_at head levels.old bindings.old in
        advanced_in result levels.new bindings.new out.new
        ≡ advance_of standard most table.now scene.now z out.old }
    ensures levels_unchanged { level_free levels.new ≡ level_free levels.old }
{
    if most == 0 {
        return none_taken(0, head.place, head);
    }
    let judged = judge(table);
    if judged.number != 0 {
        return none_taken(judged.number, judged.place, head);
    }
    if LONGEST < scene.len() {
        return none_taken(7, 0, head);
    }
    steps_from(
        table,
        header_of(table),
        scene,
        head,
        levels,
        bindings,
        most,
        out,
    )
}
