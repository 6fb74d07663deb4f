// The attributes of a tag that are no declarations: their namespaces, and the sections that they form.
#![tactic(auto)]

pub mod held;
pub mod sections;

// The numbers of a tag's attributes: eight for each of 16, and behind them the number of each one's section.
pub const HELD: usize = 144;

// A namespace as a record has it: its class, and for class 255 where its URI stands.
#[derive(Clone, Copy)]
pub struct Placing {
    pub class: u8,
    pub at: usize,
    pub len: usize,
}
