// The reader's events, one after the other.
ghost use Rattle.std.specs.Prelude.{◌+◌, ◌<◌, length};

use crate::start::Start;
use lexer::stops::{number_of, place_of};
use lexer::{Begin, EndTag, Stop, Tag};
use misc::begins::begin_at;
use namespaces::meaning;
use reader::bindings::put_keys;
use reader::kinds::all_plain;
use reader::scopes::{name_in, part_in, same_name};
use reader::{Element, Scope, Span};
use std::io;
use tags::{end_tag, start_tag};
use values::text_end;

// Why no event is left: the number and the place that the reader stops with, or a line that could not be printed.
enum Halt {
    Stopped(u8, usize),
    Unprinted(io::Error),
}

impl From<io::Error> for Halt {
    fn from(e: io::Error) -> Halt {
        Halt::Unprinted(e)
    }
}

fn stopped_by(s: &[u8], x: Stop) -> Halt {
    Halt::Stopped(number_of(x), place_of(s, x))
}

// Where the reader is: its place, whether the root has closed, whether the end of a /> is awaited, and what is open.
#[derive(Clone, Copy)]
struct Walk {
    place: usize,
    closed: bool,
    awaited: bool,
    scope: Scope,
}

impl Walk {
    fn fresh() -> Walk {
        Walk {
            place: 0,
            closed: false,
            awaited: false,
            scope: Scope::fresh(),
        }
    }

    // The innermost element ends: its name's part, and the < of its tag.
    fn ended(self, rt: &impl Print, part: Span, at: usize, place: usize) -> Result<Walk, Halt> {
        println!(rt; "end {at} {} {}", part.at, part.len)?;
        let scope = self.scope.close();
        Ok(Walk {
            place,
            closed: scope.depth == 0,
            awaited: false,
            scope,
        })
    }

    fn innermost(&self) -> Span {
        name_in(&self.scope.levels, self.scope.depth.saturating_sub(1))
    }

    // The end of a tag />.
    fn awaited_end(self, rt: &impl Print, s: &[u8]) -> Result<Walk, Halt> {
        let name = self.innermost();
        let at = name.at.saturating_sub(1);
        self.ended(rt, part_in(s, name), at, self.place)
    }

    // An end tag whose < stands at a place.
    fn end_read(self, rt: &impl Print, s: &[u8], at: usize, t: EndTag) -> Result<Walk, Halt> {
        let whole = Span::between(t.name.at, t.name.end);
        if !same_name(s, whole, self.innermost()) {
            return Err(Halt::Stopped(4, at));
        }
        self.ended(rt, Span::between(t.name.part, t.name.end), at, t.next)
    }

    fn end(self, rt: &impl Print, s: &[u8], at: usize) -> Result<Walk, Halt>
        requires { at + 1 < length s.now }
    {
        match end_tag(s, at + 2) {
            Ok(t) => self.end_read(rt, s, at, t),
            Err(x) => Err(stopped_by(s, x)),
        }
    }

    fn text_read(self, rt: &impl Print, at: usize, place: usize) -> Result<Walk, Halt> {
        let text = Span::between(at, place);
        println!(rt; "text {} {}", text.at, text.len)?;
        Ok(Walk { place, ..self })
    }

    fn text(self, rt: &impl Print, s: &[u8], at: usize) -> Result<Walk, Halt> {
        match text_end(s, at) {
            Ok(place) => self.text_read(rt, at, place),
            Err(x) => Err(stopped_by(s, x)),
        }
    }

    // The element of a start tag with so many declarations, opened unless 21 or 22 stops it.
    fn element(self, rt: &impl Print, s: &[u8], start: Start, owned: usize) -> Result<Walk, Halt> {
        let tag = start.tag;
        let name = Span::between(tag.name.at, tag.name.end);
        let scope = match self.scope.open(name, start.own, owned) {
            Ok(scope) => scope,
            Err(error) => return Err(Halt::Stopped(error.number(), start.at)),
        };
        start.print(rt, s)?;
        Ok(Walk {
            place: tag.next,
            closed: false,
            awaited: tag.empty,
            scope,
        })
    }

    fn start_read(
        self,
        rt: &impl Print,
        s: &[u8],
        at: usize,
        tag: Tag,
        attrs: &[usize; 80],
    ) -> Result<Walk, Halt> {
        let mut own = [0u32; 64];
        let mut known = [0u64; 2 * Scope::KNOWN];
        let mut spaces = [0usize; 16];
        let outer = self.scope.bindings;
        let bound = self.scope.bound.min(Scope::BINDINGS);
        put_keys(s, &outer, bound, 0, &mut known);
        let plain = all_plain(s, attrs, tag.count);
        let m = meaning(
            s,
            tag.name,
            attrs,
            tag.count,
            plain,
            &mut own,
            &outer,
            bound,
            &mut known,
            &mut spaces,
        );
        match m {
            Ok(Element { found, owned }) => {
                let start = Start {
                    at,
                    tag,
                    found,
                    attrs,
                    own: &own,
                    outer: &outer,
                    spaces: &spaces,
                };
                self.element(rt, s, start, owned)
            }
            Err(error) => Err(Halt::Stopped(error.number(), at)),
        }
    }

    fn start(self, rt: &impl Print, s: &[u8], at: usize) -> Result<Walk, Halt>
        requires { at + 1 < length s.now }
    {
        let mut attrs = [0usize; 80];
        match start_tag(s, at + 1, &mut attrs) {
            Ok(t) => self.start_read(rt, s, at, t, &attrs),
            Err(x) => Err(stopped_by(s, x)),
        }
    }

    // The next event, printed; or what stops the reader.
    fn next(self, rt: &impl Print, s: &[u8]) -> Result<Walk, Halt> {
        let inside = self.scope.depth != 0;
        if self.awaited && inside {
            return self.awaited_end(rt, s);
        }
        match begin_at(s, self.place, inside, self.closed) {
            Ok(Begin::Start(at)) => self.start(rt, s, at),
            Ok(Begin::End(at)) => self.end(rt, s, at),
            Ok(Begin::Text(at)) => self.text(rt, s, at),
            Ok(Begin::Finished) => Err(Halt::Stopped(9, s.len())),
            Err(x) => Err(stopped_by(s, x)),
        }
    }
}

// Every event of the scene, then what the reader stops with. Each event reads a byte or ends an awaited end, so that many turns suffice.
pub fn print_events(rt: &impl Print, s: &[u8]) -> io::Result<()> {
    let mut walk = Walk::fresh();
    for _ in 0..131074 {
        match walk.next(rt, s) {
            Ok(next) => walk = next,
            Err(Halt::Stopped(number, at)) => return println!(rt; "{number} {at}"),
            Err(Halt::Unprinted(e)) => return Err(e),
        }
    }
    Ok(())
}
