// The rule table: its fields and the class of a URI.
#![tactic(auto)]

pub mod uris;
pub mod words;

// What judge, step and run hand back, but for the session: the numbers that document 01 names.
#[derive(Clone, Copy)]
pub struct Answer {
    pub number: u8,
    pub place: usize,
    pub events: usize,
    pub records: usize,
}

// The four bytes that a table begins with: how many namespaces, modes, schemas and rules.
#[derive(Clone, Copy)]
pub struct Header {
    pub namespaces: u8,
    pub modes: u8,
    pub schemas: u8,
    pub rules: u8,
}

// What a rule does with a section.
#[derive(Clone, Copy)]
pub enum Action {
    Attach,
    Unwrap,
    Validate,
}

// A rule's fields, as its 32 bits have them: the action is a number, of any bits.
#[derive(Clone, Copy)]
pub struct Fields {
    pub mode: u8,
    pub kind: u8,
    pub class: u8,
    pub action: u8,
    pub schema: u8,
    pub next: u8,
    pub zeros: u8,
}

// A rule of an accepted table.
#[derive(Clone, Copy)]
pub struct Rule {
    pub mode: u8,
    pub kind: u8,
    pub class: u8,
    pub action: Action,
    pub schema: u8,
    pub next: u8,
}

// Where a listed URI stands in the table.
#[derive(Clone, Copy)]
pub struct Listed {
    pub at: usize,
    pub len: usize,
}

// The rules of a mode, kind and class in the index: their key, the first of them, and where they all have ended.
#[derive(Clone, Copy)]
pub struct Chosen {
    pub key: u32,
    pub first: usize,
    pub end: usize,
}
