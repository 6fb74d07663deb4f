// Tags to events: declarations, prefixes looked up, numbers 4, 5 and 6, and the scopes of open elements.
#![tactic(auto)]

pub mod bindings;
pub mod kinds;
pub mod scopes;

ghost use Rattle.std.specs.Prelude.{◌≡◌, Err};
ghost use Rattle.reader.specs.Spans.{between};
ghost use Rattle.reader.specs.Stored.{meant_number};
ghost use Rattle.reader.specs.Scope.{scope_number};

// Bytes of the scene: the first, and how many.
#[derive(Clone, Copy, PartialEq, Eq)]
pub struct Span {
    pub at: usize,
    pub len: usize,
}

// A declaration: the span of its prefix, zero for the default, and of its URI.
#[derive(Clone, Copy)]
pub struct Binding {
    pub prefix: Span,
    pub uri: Span,
}

// What an attribute's name makes of it.
#[derive(Clone, Copy)]
pub enum Kind {
    // In no namespace.
    Plain,
    // In the namespace of its prefix.
    Prefixed,
    // A declaration of the default namespace.
    Default,
    // A declaration of a prefix.
    Declares,
}

// The declaration in force: none, xml's own, the k-th of the tag's own, the k-th of those that are open. Unbound is none for a prefix that needs one: `found_of` answers it too.
#[derive(Clone, Copy)]
pub enum Found {
    Nothing,
    Xml,
    Own(usize),
    Open(usize),
    Unbound,
}

// Why a tag is refused: a prefix that is unbound or declared as it may not be; two attributes of one name.
#[derive(Clone, Copy, Debug, PartialEq, Eq)]
pub enum NamespaceError {
    BadPrefix,
    Duplicate,
}

// What a tag means: its element's declaration in force, and how many declarations it has.
#[derive(Clone, Copy)]
pub struct Element {
    pub found: Found,
    pub owned: usize,
}

// The open elements, three numbers to a level (its name's place and length, how many bindings it has), and the open bindings, four numbers to a binding: fixed memory.
#[derive(Clone, Copy)]
pub struct Scope {
    pub depth: usize,
    pub bound: usize,
    pub levels: [u32; 3 * Scope::DEPTH],
    pub bindings: [u32; 4 * Scope::BINDINGS],
}

// Why no element is opened: as many are open as can be; or its declarations have no room.
#[derive(Clone, Copy, Debug, PartialEq, Eq)]
pub enum ScopeError {
    Depth,
    Bindings,
}

impl Span {
    // From a place up to another.
    pub fn between(from: usize, to: usize) -> Span
        ensures { result ≡ between from to }
    {
        Span {
            at: from,
            len: to.saturating_sub(from),
        }
    }
}

impl NamespaceError {
    // Number 5 or 6.
    pub fn number(self) -> u8
        ensures { result ≡ meant_number (Err self) }
    {
        match self {
            NamespaceError::BadPrefix => 5,
            NamespaceError::Duplicate => 6,
        }
    }
}

impl ScopeError {
    // Number 21 or 22.
    pub fn number(self) -> u8
        ensures { result ≡ scope_number self }
    {
        match self {
            ScopeError::Depth => 21,
            ScopeError::Bindings => 22,
        }
    }
}
