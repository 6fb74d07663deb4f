// A start tag's lines: one for its element, and one for each attribute that is no declaration.
ghost use Rattle.std.specs.Prelude.{◌<◌};

use lexer::{Attr, Tag};
use namespaces::spaces::found_in;
use reader::bindings::binding_in;
use reader::kinds::{is_declaration, kind_of};
use reader::{Found, Span};
use std::{fmt, io};
use tags::attr_in;

// A namespace on a line: none, xml, unbound, or the span of its URI in the declaration.
#[derive(Clone, Copy)]
enum Namespace {
    None,
    Xml,
    Declared(Span),
    Unbound,
}

impl fmt::Display for Namespace {
    fn fmt<W: fmt::Write>(&self, f: &mut fmt::Formatter<W>) -> fmt::Result {
        match self {
            Namespace::None => f.write_str("none"),
            Namespace::Xml => f.write_str("xml"),
            Namespace::Declared(uri) => write!(f, "{} {}", uri.at, uri.len),
            Namespace::Unbound => f.write_str("unbound"),
        }
    }
}

// A start tag: its <, the declaration in force of its name, and the reader's arrays, for its attributes, its own bindings, those that are open, and its attributes' namespaces.
#[derive(Clone, Copy)]
pub struct Start<'a> {
    pub at: usize,
    pub tag: Tag,
    pub found: Found,
    pub attrs: &'a [usize; 80],
    pub own: &'a [u32; 64],
    pub outer: &'a [u32; 256],
    pub spaces: &'a [usize; 16],
}

impl Start<'_> {
    fn namespace(&self, found: Found) -> Namespace {
        let Start { own, outer, .. } = *self;
        match found {
            Found::Nothing => Namespace::None,
            Found::Xml => Namespace::Xml,
            Found::Own(k) => Namespace::Declared(binding_in(own, k).uri),
            Found::Open(k) => Namespace::Declared(binding_in(outer, k).uri),
            Found::Unbound => Namespace::Unbound,
        }
    }

    // A line for the k-th attribute, if it is no declaration: its part, its value and its namespace.
    fn print_attribute(&self, rt: &impl Print, s: &[u8], k: usize) -> io::Result<()>
        requires { k < 16 }
    {
        let Attr { name, value, stop } = attr_in(self.attrs, k);
        if is_declaration(kind_of(s, name)) {
            return Ok(());
        }
        let part = Span::between(name.part, name.end);
        let value = Span::between(value, stop);
        let namespace = self.namespace(found_in(self.spaces[k]));
        println!(rt;
            "attribute {} {} {} {} {namespace}",
            part.at, part.len, value.at, value.len
        )
    }

    pub fn print(&self, rt: &impl Print, s: &[u8]) -> io::Result<()> {
        let name = Span::between(self.tag.name.at, self.tag.name.end);
        let namespace = self.namespace(self.found);
        println!(rt; "start {} {} {} {namespace}", self.at, name.at, name.len)?;
        for k in 0..self.tag.count.min(16) {
            self.print_attribute(rt, s, k)?;
        }
        Ok(())
    }
}
