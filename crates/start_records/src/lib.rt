// The records of a start: those of its attribute units, and those of its element along its strands.
#![tactic(auto)]

pub mod elements;
pub mod units;
