// Characters in UTF-8 and sets of code points: definitions in specs/, the decision which bytes can begin a character in proofs/. Types, and no functions.
#![tactic(auto)]

// Code points, the first and the last.
#[derive(Clone, Copy)]
pub struct Range {
    pub first: u32,
    pub last: u32,
}

// What may begin a name part, what may go on with one, and what text holds.
#[derive(Clone, Copy)]
pub enum Set {
    Start,
    Name,
    Char,
}

// What the first bytes of a character say: how many are to come, the bits so far, and the least code point that needs so many bytes.
#[derive(Clone, Copy)]
pub struct Form {
    pub left: u32,
    pub value: u32,
    pub floor: u32,
}
