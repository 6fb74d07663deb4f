// Where the next event begins.
ghost use Rattle.std.specs.Prelude.{◌≡◌, cond, true, Ok};
ghost use Rattle.lexer.specs.Names.{spaces_end};
ghost use Rattle.lexer.specs.Begins.{misc_ahead, opens_misc, markup_at, either_at, ahead_at, begin_at};

use crate::instructions::misc_end;
use lexer::names::spaces_end;
use lexer::{Begin, Stop};
use std::ops::ControlFlow;
use std::ops::ControlFlow::{Break, Continue};

// What stands at a place where the next event may begin: Break with what it is, or Continue behind a comment, an instruction or the declaration.
type Ahead = ControlFlow<Result<Begin, Stop>, usize>;

// A misc whose < stands at a place.
fn misc_ahead(s: &[u8], at: usize) -> Ahead
    ensures { result ≡ misc_ahead s.now at }
{
    match misc_end(s, at) {
        Ok(end) => Continue(end),
        Err(x) => Break(Err(x)),
    }
}

fn opens_misc(b: u8) -> bool
    ensures { result ≡ opens_misc b }
{
    (b == b'!') | (b == b'?')
}

// What a < at a place begins: an end tag only inside an element, a start tag not behind the root.
fn markup_at(s: &[u8], inside: bool, closed: bool, at: usize) -> Ahead
    ensures { result ≡ markup_at s.now inside closed at }
{
    if s.len() <= at {
        return Break(Err(Stop::Cut));
    }
    let second = at + 1;
    if s.len() <= second {
        return Break(Err(Stop::Cut));
    }
    let b = s[second];
    if b == b'/' {
        if inside {
            return Break(Ok(Begin::End(at)));
        }
        return Break(Err(Stop::Bad(second)));
    }
    if opens_misc(b) {
        return misc_ahead(s, at);
    }
    if inside | !closed {
        return Break(Ok(Begin::Start(at)));
    }
    Break(Err(Stop::Bad(second)))
}

// A tag, a misc, or inside an element a text.
fn either_at(s: &[u8], inside: bool, closed: bool, at: usize) -> Ahead
    ensures { result ≡ either_at s.now inside closed at }
{
    if s.len() <= at {
        return Break(Err(Stop::Cut));
    }
    if s[at] == b'<' {
        return markup_at(s, inside, closed, at);
    }
    if inside {
        return Break(Ok(Begin::Text(at)));
    }
    Break(Err(Stop::Bad(at)))
}

// Where what stands at a place begins: outside the root behind space.
fn place_ahead(s: &[u8], inside: bool, at: usize) -> Result<usize, Stop>
    ensures { result ≡ cond inside (Ok at) (spaces_end s.now at) }
{
    if inside {
        return Ok(at);
    }
    spaces_end(s, at)
}

// What stands at a place: an event, or a misc.
fn ahead_at(s: &[u8], inside: bool, closed: bool, at: usize) -> Ahead
    ensures { result ≡ ahead_at s.now inside closed at }
{
    match place_ahead(s, inside, at) {
        Ok(i) => either_at(s, inside, closed, i),
        Err(x) => {
            if closed {
                return Break(Ok(Begin::Finished));
            }
            Break(Err(x))
        }
    }
}

// Where the next event begins, behind any number of misc: inside an element or not, the root closed or not.
fn begin_from(s: &[u8], at: usize, inside: bool, closed: bool) -> Result<Begin, Stop>
    ensures { result ≡ begin_at s.now at inside closed }
{
    let mut i = at;
    loop {
        match ahead_at(s, inside, closed, i) {
            Break(event) => {
                return event;
            }
            Continue(end) => {
                i = end;
            }
        }
    }
}

// The same inside an element: at once where no misc stands.
fn begin_inside(s: &[u8], at: usize, closed: bool) -> Result<Begin, Stop>
    ensures { result ≡ begin_at s.now at true closed }
{
    if at < s.len() {
        if s[at] != b'<' {
            return Ok(Begin::Text(at));
        }
        let second = at + 1;
        if second < s.len() {
            let b = s[second];
            if b == b'/' {
                return Ok(Begin::End(at));
            }
            if !opens_misc(b) {
                return Ok(Begin::Start(at));
            }
        }
    }
    begin_from(s, at, true, closed)
}

// The same, inside an element or not.
pub fn begin_at(s: &[u8], at: usize, inside: bool, closed: bool) -> Result<Begin, Stop>
    ensures { result ≡ begin_at s.now at inside closed }
{
    if inside {
        return begin_inside(s, at, closed);
    }
    begin_from(s, at, false, closed)
}
