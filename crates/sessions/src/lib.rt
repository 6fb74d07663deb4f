// A session's numbers and limits, and what one event's work hands on.
#![tactic(auto)]

pub mod checks;

ghost use Rattle.std.specs.Prelude.{◌≡◌, replicate};
ghost use Rattle.sessions.specs.Sessions.{fresh_of, head_of};
ghost use Rattle.sessions.specs.Turns.{refusal_of};

use attributes::{HELD, Placing};
use lexer::stops::{number_of, place_of};
use lexer::{Stop, Tag};
use openings::Decided;
use reader::{Found, Scope, Span};

// Limits of a session: open levels, open bindings, strands of a level, units.
pub const DEPTH: usize = Scope::DEPTH;

pub const BINDINGS: usize = Scope::BINDINGS;

pub const STRANDS: usize = openings::STRANDS;

pub const UNITS: usize = openings::UNITS;

// The longest scene.
pub const LONGEST: usize = 16777215;

// The numbers of a session.
#[derive(Clone, Copy, PartialEq, Eq)]
pub struct Head {
    pub place: usize,
    pub units: usize,
    pub closed: bool,
    pub awaited: bool,
    pub depth: usize,
    pub bound: usize,
}

// What one event's work gives: a number and its place, how many records it has, and the session's numbers behind it. The number is the answer's, 0 where the event was taken, as `step_in` has it.
#[derive(Clone, Copy)]
pub struct Turn {
    pub number: u8,
    pub place: usize,
    pub records: usize,
    pub head: Head,
}

// What some steps give: the last one's number, which is the answer's, and place, how many events and records, and the session's numbers behind them.
#[derive(Clone, Copy)]
pub struct Advanced {
    pub number: u8,
    pub place: usize,
    pub events: usize,
    pub records: usize,
    pub head: Head,
}

// A start tag with its namespaces: its <, the tag, its declaration in force, how many declarations it has, and whether its attributes are plain.
#[derive(Clone, Copy)]
pub struct Started {
    pub at: usize,
    pub tag: Tag,
    pub found: Found,
    pub owned: usize,
    pub plain: bool,
}

// A refusal: its number and its place, as the specification has them.
#[derive(Clone, Copy, Debug, PartialEq, Eq)]
pub struct Refusal {
    pub number: u8,
    pub place: usize,
}

// What comes next, decided without an output.
#[derive(Clone, Copy)]
pub enum Planned {
    // A start, its namespace and what it makes.
    Start {
        started: Started,
        placing: Placing,
        decided: Decided,
    },
    // A text: its first byte and the place behind it.
    Text {
        at: usize,
        end: usize,
    },
    // An end: its name's part, its tag's < and the place behind it.
    End {
        part: Span,
        at: usize,
        place: usize,
    },
    // The end of a />: its name's part, its tag's <.
    Awaited {
        part: Span,
        at: usize,
    },
    // The scene's end.
    Finished,
}

// The arrays that a step works in, overwritten by each: a tag's attributes, their codes, its declarations, the attributes of its records, the strands, their schemas, the rows of records.
#[derive(Drop)]
pub struct Scratch {
    pub attrs: [usize; 80],
    pub codes: [usize; 16],
    pub own: [u32; 64],
    pub attributes: [u32; HELD],
    pub words: [u32; STRANDS],
    pub schemas: [u32; STRANDS],
    pub rows: [u64; 82],
}

impl Scratch {
    // All zeros; no step rests on that.
    pub fn new() -> Scratch
        ensures attrs { result.attrs ≡ replicate 80 0 }
        ensures codes { result.codes ≡ replicate 16 0 }
        ensures own { result.own ≡ replicate 64 0 }
        ensures attributes { result.attributes ≡ replicate 144 0 }
        ensures words { result.words ≡ replicate 16 0 }
        ensures schemas { result.schemas ≡ replicate 16 0 }
        ensures rows { result.rows ≡ replicate 82 0 }
    {
        Scratch {
            attrs: [0; 80],
            codes: [0; 16],
            own: [0; 64],
            attributes: [0; HELD],
            words: [0; STRANDS],
            schemas: [0; STRANDS],
            rows: [0; 82],
        }
    }
}

impl Refusal {
    // Reading stopped.
    pub fn stopped(scene: &[u8], x: Stop) -> Refusal
        ensures { result ≡ refusal_of scene.now x }
    {
        Refusal {
            number: number_of(x),
            place: place_of(scene, x),
        }
    }
}

impl Head {
    // Those of a fresh session.
    pub fn fresh() -> Head
        ensures { result ≡ head_of fresh_of }
    {
        Head {
            place: 0,
            units: 0,
            closed: false,
            awaited: false,
            depth: 0,
            bound: 0,
        }
    }
}
