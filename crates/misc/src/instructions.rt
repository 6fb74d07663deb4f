// Comments and processing instructions.
ghost use Rattle.std.specs.Prelude.{◌≡◌};
ghost use Rattle.lexer.specs.Misc.{comment_rest, comment_end, content_end, behind_target, is_xml, is_declared, instruction_end, misc_end};

use crate::declaration::{declaration_end, word_end};
use lexer::Stop;
use lexer::chars::{char_end, is_char};
use lexer::names::{is_space, part_end};
use tags::want;
use utf8::Set;

// A comment from behind its <!-- on.
#[inline(never)]
fn comment_rest(s: &[u8], at: usize) -> Result<usize, Stop>
    ensures { result ≡ comment_rest s.now at }
{
    let mut i = at;
    let mut hyphens: usize = 0;
    while i < s.len() {
        let b = s[i];
        if hyphens == 2 {
            if b == b'>' {
                return Ok(i + 1);
            }
            return Err(Stop::Bad(i));
        }
        if b == b'-' {
            hyphens += 1;
            i += 1;
        } else if b < 0x80 {
            if !is_char(b) {
                return Err(Stop::Bad(i));
            }
            hyphens = 0;
            i += 1;
        } else {
            i = char_end(s, i, Set::Char)?;
            hyphens = 0;
        }
    }
    Err(Stop::Cut)
}

// A comment from behind its <! on.
fn comment_end(s: &[u8], at: usize) -> Result<usize, Stop>
    ensures { result ≡ comment_end s.now at }
{
    let i = word_end(s, at, b"--")?;
    comment_rest(s, i)
}

// What an instruction holds behind its target and a space.
fn content_end(s: &[u8], at: usize) -> Result<usize, Stop>
    ensures { result ≡ content_end s.now at }
{
    let mut i = at;
    let mut behind = false;
    while i < s.len() {
        let b = s[i];
        if behind & (b == b'>') {
            return Ok(i + 1);
        }
        behind = b == b'?';
        if b < 0x80 {
            if !is_char(b) {
                return Err(Stop::Bad(i));
            }
            i += 1;
        } else {
            i = char_end(s, i, Set::Char)?;
        }
    }
    Err(Stop::Cut)
}

// An instruction from behind its target on.
fn behind_target(s: &[u8], at: usize) -> Result<usize, Stop>
    ensures { result ≡ behind_target s.now at }
{
    if s.len() <= at {
        return Err(Stop::Cut);
    }
    if is_space(s[at]) {
        return content_end(s, at + 1);
    }
    if s[at] == b'?' {
        return want(s, at + 1, b'>');
    }
    Err(Stop::Bad(at))
}

// Whether the part from at to end is xml in any letter case.
fn is_xml(s: &[u8], at: usize, end: usize) -> bool
    ensures { result ≡ is_xml s.now at end }
{
    if (end < 3) | (s.len() < end) {
        return false;
    }
    if end - 3 != at {
        return false;
    }
    let x = s[at];
    let m = s[at + 1];
    let l = s[at + 2];
    ((x == 0x58) | (x == 0x78)) & ((m == 0x4D) | (m == 0x6D)) & ((l == 0x4C) | (l == 0x6C))
}

// Whether that is the declaration's, at the scene's first byte.
fn is_declared(s: &[u8], at: usize) -> bool
    ensures { result ≡ is_declared s.now at }
{
    if (at != 2) | (s.len() < 5) {
        return false;
    }
    (s[2] == 0x78) & (s[3] == 0x6D) & (s[4] == 0x6C)
}

// An instruction or the declaration from behind its <? on.
fn instruction_end(s: &[u8], at: usize) -> Result<usize, Stop>
    ensures { result ≡ instruction_end s.now at }
{
    let target = part_end(s, at)?;
    if !is_xml(s, at, target) {
        return behind_target(s, target);
    }
    if !is_declared(s, at) {
        return Err(Stop::Bad(at));
    }
    declaration_end(s, target)
}

// The place behind a misc whose < stands at a place, a ! or ? behind it.
pub fn misc_end(s: &[u8], at: usize) -> Result<usize, Stop>
    ensures { result ≡ misc_end s.now at }
{
    if s.len() <= at {
        return Err(Stop::Cut);
    }
    let second = at + 1;
    if s.len() <= second {
        return Err(Stop::Cut);
    }
    if s[second] == b'?' {
        return instruction_end(s, second + 1);
    }
    comment_end(s, second + 1)
}
