// Bytes to tags and texts: names, references, values, attributes, tags. Prefixes are looked up by the layer above.
#![tactic(auto)]

pub mod chars;
pub mod names;
pub mod stops;

// Why reading stops.
#[derive(Clone, Copy)]
pub enum Stop {
    // A byte that cannot stand there.
    Bad(usize),
    // The 65th byte of a part, or the first of a 17th attribute.
    Long(usize),
    // The scene ends.
    Cut,
}

// A name: its first byte, the first byte of its last part, and its end.
#[derive(Clone, Copy)]
pub struct Name {
    pub at: usize,
    pub part: usize,
    pub end: usize,
}

// An attribute: its name, where its value begins and ends.
#[derive(Clone, Copy)]
pub struct Attr {
    pub name: Name,
    pub value: usize,
    pub stop: usize,
}

// What stands behind a tag's name or an attribute, or behind a field of the declaration.
#[derive(Clone, Copy)]
pub enum Turn {
    // The tag's end: the place behind it, and whether it is />, or the declaration's ?>.
    Close(usize, bool),
    // A name, after space.
    Attribute(usize),
}

// A start tag: its name, how many attributes, the place behind it, and whether it ends in />.
#[derive(Clone, Copy)]
pub struct Tag {
    pub name: Name,
    pub count: usize,
    pub next: usize,
    pub empty: bool,
}

// An end tag: its name and the place behind it.
#[derive(Clone, Copy)]
pub struct EndTag {
    pub name: Name,
    pub next: usize,
}

// What stands at the place where the next event begins.
#[derive(Clone, Copy)]
pub enum Begin {
    // The < of a start tag.
    Start(usize),
    // The < of an end tag.
    End(usize),
    // The first byte of a text.
    Text(usize),
    // The root has closed, and only space, comments and instructions follow.
    Finished,
}

// What a declaration holds.
#[derive(Clone, Copy)]
pub enum Field {
    Version,
    Encoding,
    Standalone,
}
