// A session in a host's bytes, and the answers that a host is told.
#![tactic(auto)]

pub mod answers;
pub mod storing;
