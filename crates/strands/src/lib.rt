// The strands of an element, its attribute sections, and the records of an event, over arrays of numbers.
#![tactic(auto)]

ghost use Rattle.std.specs.Prelude.{◌≡◌, ◌+◌, ◌^◌, ◌<◌};

pub mod counts;
pub mod events;
pub mod levels;
pub mod packed;
pub mod rules;

use reader::Scope;
use std::ops::AddAssign;

// The numbers of all levels, 24 to a level.
pub const LEVELS: usize = 24 * Scope::DEPTH;

// Attribute units: how many, and how many records they have.
#[derive(Clone, Copy)]
pub struct Load {
    pub units: usize,
    pub records: usize,
}

impl AddAssign for Load {
    ghost can_add_assign = { λ a b. (a.units + b.units < 2 ^ 64) × (a.records + b.records < 2 ^ 64) };

    ghost add_assign_gives = { λ a b c. (c.units ≡ a.units + b.units) × (c.records ≡ a.records + b.records) };

    fn add_assign(&mut self, other: Load) {
        self.units += other.units;
        self.records += other.records;
    }
}

// Where writing has come to: the next unit's number, and the first free byte.
#[derive(Clone, Copy)]
pub struct Wrote {
    pub unit: usize,
    pub used: usize,
}

// What the starts of an element along its strands have in common: its tag's <, its part, its class and its URI.
#[derive(Clone, Copy)]
pub struct Begun {
    pub tag: u32,
    pub class: u8,
    pub at: u32,
    pub len: u32,
    pub uri_at: u32,
    pub uri_len: u32,
}
