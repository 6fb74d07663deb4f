// Which bytes can begin a character of a set.
#![tactic(auto)]

pub mod forms;
pub mod sets;
