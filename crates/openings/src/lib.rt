// An element that opens, over arrays of numbers: its strands, its units and records counted and written, its level laid down. And the levels of a session in one array.
#![tactic(auto)]

pub mod arrays;
pub mod entering;
pub mod levels;
pub mod weighing;
pub mod writing;

// At most so many strands a level has, and units a session opens.
pub const STRANDS: usize = 16;

pub const UNITS: usize = 65536;

// What was decided of a start: how many strands, attributes and attribute sections; the units opened so far behind it; how many records.
#[derive(Clone, Copy)]
pub struct Decided {
    pub strands: usize,
    pub attributes: usize,
    pub sections: usize,
    pub units: usize,
    pub records: usize,
}
