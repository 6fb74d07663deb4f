// A character of a set, read from UTF-8.
ghost use Rattle.std.specs.Prelude.{◌≡◌, [], ◌+◌, ◌<◌, IfSome, Ok};
ghost use Rattle.characters.specs.CanBegin.{begins};
ghost use Rattle.lexer.specs.Shortcuts.{is_char};
ghost use Rattle.lexer.specs.Characters.{char_end};

use crate::Stop;
use characters::forms::{can_begin, fresh_form, next_form};
use utf8::Set;

// How many bytes the character of the set has that stands whole at a place, where one is found.
pub(crate) fn whole_len(s: &[u8], at: usize, set: Set) -> Option<usize>
    ensures { IfSome result (λ n. (0 < n) × (char_end set s.now at ≡ Ok (at + n))) }
{
    let mut f = fresh_form();
    for i in at..s.len() {
        f = next_form(f, s[i]);
        if f.left == 0 {
            if can_begin(set, f) {
                return Some(i + 1 - at);
            }
            return None;
        }
    }
    None
}

// Where the character that begins at a place ends, or the first byte with which no character of the set goes on.
pub fn char_end(s: &[u8], at: usize, set: Set) -> Result<usize, Stop>
    ensures { result ≡ char_end set s.now at }
{
    match whole_len(s, at, set) {
        Some(n) => Ok(at + n),
        None => broken_end(s, at, set),
    }
}

// The same, byte by byte.
fn broken_end(s: &[u8], at: usize, set: Set) -> Result<usize, Stop>
    ensures { result ≡ char_end set s.now at }
{
    let mut f = fresh_form();
    for i in at..s.len() {
        let g = next_form(f, s[i]);
        if !can_begin(set, g) {
            return Err(Stop::Bad(i));
        }
        if g.left == 0 {
            return Ok(i + 1);
        }
        f = g;
    }
    Err(Stop::Cut)
}

// Can a character of the set begin with this byte?
pub fn can_start(set: Set, b: u8) -> bool
    ensures { result ≡ begins set [] b }
{
    can_begin(set, next_form(fresh_form(), b))
}

// Is a byte below 80 a character?
pub fn is_char(b: u8) -> bool
    ensures { result ≡ is_char b }
{
    (0x20 <= b) | (b == 0x0A) | (b == 0x09) | (b == 0x0D)
}
