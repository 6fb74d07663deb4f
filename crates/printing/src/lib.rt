// Records and answers as lines of numbers on standard output, and a file by its name.
#![tactic(auto)]

pub mod files;
pub mod lines;
pub mod rows;
