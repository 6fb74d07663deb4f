// The dispatcher: a session, its steps, one and many, and a run.
#![tactic(auto)]

pub mod offers;

ghost use Rattle.std.specs.Prelude.{◌≡◌, ◌+◌, ◌*◌, ◌≤◌, length};
ghost use Rattle.table.specs.Table.{standard};
ghost use Rattle.strands.specs.Levels.{level_names, level_spaces, level_strands};
ghost use Rattle.sessions.specs.Sessions.{fresh_of, head_of, session_at};
ghost use Rattle.sessions.specs.Stepping.{step_of, advance_of, run_of, ran};
ghost use Rattle.sessions.specs.Asking.{ask_of};
ghost use Rattle.dispatcher.specs.Handed.{held_by, handed, handed_ask};

use crate::offers::{Asked, Offer};
use advances::{advance_in, answer_of};
use asking::ask_in;
use openings::arrays::{join_levels, part_levels};
use reader::Scope;
use sessions::Head;
use strands::LEVELS;
use table::Answer;

// Where a run over a scene is. A caller may hand in any: number 20 judges it.
#[derive(Clone, Copy)]
pub struct Session {
    pub place: usize,
    // Units opened so far.
    pub units: usize,
    // Whether the root has closed.
    pub closed: bool,
    // Whether the end of a /> is awaited.
    pub awaited: bool,
    // The open levels' names and bindings.
    pub scope: Scope,
    // Four numbers to a level: its class, its URI's place and length, how many strands it has.
    pub spaces: [u32; 4 * Session::DEPTH],
    // Sixteen strands to a level, each packed in a number.
    pub strands: [u32; Session::STRANDS * Session::DEPTH],
}

// What a step hands back.
#[derive(Clone, Copy)]
pub struct Stepped {
    pub answer: Answer,
    pub session: Session,
}

impl Session {
    pub const DEPTH: usize = sessions::DEPTH;

    pub const BINDINGS: usize = sessions::BINDINGS;

    pub const STRANDS: usize = sessions::STRANDS;

    pub const UNITS: usize = sessions::UNITS;

    // The longest scene.
    pub const LONGEST: usize = sessions::LONGEST;

    // Nothing read, nothing open.
    pub fn fresh() -> Session
        ensures { held_by result ≡ fresh_of }
    {
        Session {
            place: 0,
            units: 0,
            closed: false,
            awaited: false,
            scope: Scope::fresh(),
            spaces: [0; 4 * Session::DEPTH],
            strands: [0; Session::STRANDS * Session::DEPTH],
        }
    }

    // Its levels in one array.
    pub(crate) fn levels(self) -> [u32; LEVELS]
        ensures { (level_names result ≡ self.scope.levels) × (level_spaces result ≡ self.spaces) × (level_strands result ≡ self.strands) }
    {
        let names = self.scope.levels;
        let spaces = self.spaces;
        let strands = self.strands;
        let mut levels: [u32; LEVELS] = [0; LEVELS];
        join_levels(&names, &spaces, &strands, &mut levels);
        levels
    }

    // Its numbers.
    pub(crate) fn head(self) -> Head
        ensures { result ≡ head_of (held_by self) }
    {
        Head {
            place: self.place,
            units: self.units,
            closed: self.closed,
            awaited: self.awaited,
            depth: self.scope.depth,
            bound: self.scope.bound,
        }
    }

    // Numbers and arrays, put together.
    pub(crate) fn of(
        head: Head,
        all: &[u32; LEVELS],
        bindings: [u32; 4 * Session::BINDINGS],
    ) -> Session
        ensures { held_by result ≡ session_at head all.now bindings }
    {
        let mut levels: [u32; 3 * Session::DEPTH] = [0; 3 * Session::DEPTH];
        let mut spaces: [u32; 4 * Session::DEPTH] = [0; 4 * Session::DEPTH];
        let mut strands: [u32; Session::STRANDS * Session::DEPTH] = [0; Session::STRANDS
            * Session::DEPTH];
        part_levels(all, 3, 0, &mut levels);
        part_levels(all, 4, 3, &mut spaces);
        part_levels(all, 16, 8, &mut strands);
        Session {
            place: head.place,
            units: head.units,
            closed: head.closed,
            awaited: head.awaited,
            scope: Scope {
                depth: head.depth,
                bound: head.bound,
                levels,
                bindings,
            },
            spaces,
            strands,
        }
    }

    // One event: its records from the output's first byte on, and the session behind it.
    pub fn step(self, table: &[u8], scene: &[u8], out: &mut [u8]) -> Stepped
        ensures { handed result out.new ≡ step_of standard table.now scene.now (held_by self) out.old }
    {
        self.advance(table, scene, 1, out)
    }

    // At most so many steps, records joined, until a step's number is not 0. With none nothing is judged.
    pub fn advance(self, table: &[u8], scene: &[u8], most: usize, out: &mut [u8]) -> Stepped
        ensures { handed result out.new ≡ advance_of standard most table.now scene.now (held_by self) out.old }
    {
        let mut levels = self.levels();
        let mut bindings = self.scope.bindings;
        let advanced = advance_in(
            table,
            scene,
            self.head(),
            &mut levels,
            &mut bindings,
            most,
            out,
        );
        Stepped {
            answer: answer_of(advanced),
            session: Session::of(advanced.head, &levels, bindings),
        }
    }

    // What a step would answer with an output that suffices, and an offer of it. Nothing is written.
    pub fn ask(self, table: &[u8], scene: &[u8]) -> Asked
        ensures { handed_ask result ≡ ask_of standard table.now scene.now (held_by self) }
    {
        let levels = self.levels();
        let bindings = self.scope.bindings;
        let answer = ask_in(table, scene, self.head(), levels, bindings);
        Asked {
            number: answer.number,
            place: answer.place,
            records: answer.records,
            offer: Offer {
                session: self,
                length: scene.len(),
            },
        }
    }
}

// Steps from fresh, records joined, until a step's number is not 0.
pub fn run(table: &[u8], scene: &[u8], out: &mut [u8]) -> Answer
    ensures { ran result out.new ≡ run_of standard table.now scene.now out.old }
{
    let mut levels: [u32; LEVELS] = [0; LEVELS];
    let mut bindings: [u32; 4 * Session::BINDINGS] = [0; 4 * Session::BINDINGS];
    let advanced = advance_in(
        table,
        scene,
        Head::fresh(),
        &mut levels,
        &mut bindings,
        steps_within(scene),
        out,
    );
    answer_of(advanced)
}

// So many steps suffice. A scene that is too long is refused by the first.
fn steps_within(scene: &[u8]) -> usize
    ensures { (1 ≤ result) × (length scene.now ≤ 16777215 → result ≡ 2 * length scene.now + 2) }
{
    if Session::LONGEST < scene.len() {
        1
    } else {
        2 * scene.len() + 2
    }
}
