// References, values and texts.
#![tactic(auto)]

ghost use Rattle.std.specs.Prelude.{◌≡◌, cond, not, ◌&&◌, ◌≤◌, ltb, eqb, drop};
ghost use Rattle.lexer.specs.Shortcuts.{is_char};
ghost use Rattle.lexer.specs.Values.{references, common, furthest, no_reference, reference_end, closes, value_from, value_end, text_end};

use lanes::plain::plain_end;
use lexer::Stop;
use lexer::chars::{char_end, is_char};
use utf8::Set;

// How many bytes from at on are those that the word begins with.
fn common_at(s: &[u8], at: usize, word: &[u8]) -> usize
    ensures { result ≡ common (drop at s.now) word.now }
{
    for k in 0..word.len() {
        if s.len() <= at {
            return k;
        }
        if s.len() - at <= k {
            return k;
        }
        if s[at + k] != word[k] {
            return k;
        }
    }
    word.len()
}

// The most bytes from at on that one of the five references begins with.
fn furthest_at(s: &[u8], at: usize) -> usize
    ensures { result ≡ furthest (drop at s.now) references }
{
    let apos = common_at(s, at, b"&apos;");
    let quot = common_at(s, at, b"&quot;").max(apos);
    let amp = common_at(s, at, b"&amp;").max(quot);
    let gt = common_at(s, at, b"&gt;").max(amp);
    common_at(s, at, b"&lt;").max(gt)
}

// None of the five references stands whole at a place.
fn no_reference(s: &[u8], at: usize) -> Result<usize, Stop>
    ensures { result ≡ no_reference s.now at }
{
    let k = furthest_at(s, at);
    if s.len() <= at {
        return Err(Stop::Cut);
    }
    if s.len() - at <= k {
        return Err(Stop::Cut);
    }
    Err(Stop::Bad(at + k))
}

// Where a reference whose & stands at a place ends.
pub fn reference_end(s: &[u8], at: usize) -> Result<usize, Stop>
    ensures { result ≡ reference_end s.now at }
{
    if common_at(s, at, b"&lt;") == 4 {
        return Ok(at + 4);
    }
    if common_at(s, at, b"&gt;") == 4 {
        return Ok(at + 4);
    }
    if common_at(s, at, b"&amp;") == 5 {
        return Ok(at + 5);
    }
    if common_at(s, at, b"&quot;") == 6 {
        return Ok(at + 6);
    }
    if common_at(s, at, b"&apos;") == 6 {
        return Ok(at + 6);
    }
    no_reference(s, at)
}

// Is a byte below 80 a character other than <?
fn is_text(b: u8) -> bool
    ensures { result ≡ (is_char b && not (eqb b 0x3C)) }
{
    is_char(b) & (b != b'<')
}

// Whether the byte b at i is the > of ]]> in a text that begins at a place.
fn is_closing(s: &[u8], at: usize, quote: u8, b: u8, i: usize) -> bool
    ensures { result ≡ closes s.now at quote b i }
{
    if (quote != b'<') | (b != b'>') {
        return false;
    }
    if (s.len() < i) | (i < 2) {
        return false;
    }
    if i - 2 < at {
        return false;
    }
    (s[i - 1] == b']') & (s[i - 2] == b']')
}

// Behind the characters from 80 on that stand at i, up to the quote.
fn high_end(s: &[u8], at: usize, quote: u8, from: usize) -> usize
    ensures { (from ≤ result) × (value_from s.now at quote result ≡ value_from s.now at quote from) }
{
    let mut i = from;
    while i < s.len() {
        let b = s[i];
        if b < 0x80 {
            return i;
        }
        if b == quote {
            return i;
        }
        match char_end(s, i, Set::Char) {
            Ok(j) => {
                i = j;
            }
            Err(_) => {
                return i;
            }
        }
    }
    i
}

// The same as value_end from a place on, byte by byte where a byte is not plain.
fn value_rest(s: &[u8], at: usize, quote: u8, from: usize) -> Result<usize, Stop>
    ensures { result ≡ value_from s.now at quote from }
{
    let mut i = from;
    while i < s.len() {
        let b = s[i];
        if b == quote {
            return Ok(i);
        }
        if b == b'&' {
            let j = reference_end(s, i)?;
            i = plain_end(s, j, quote);
        } else {
            if is_closing(s, at, quote, b, i) {
                return Err(Stop::Bad(i - 2));
            }
            if b < 0x80 {
                if !is_text(b) {
                    return Err(Stop::Bad(i));
                }
                i = plain_end(s, i + 1, quote);
            } else {
                let j = char_end(s, i, Set::Char)?;
                i = plain_end(s, high_end(s, at, quote, j), quote);
            }
        }
    }
    Err(Stop::Cut)
}

// The place of the quote that ends a value, which begins at a place.
pub fn value_end(s: &[u8], at: usize, quote: u8) -> Result<usize, Stop>
    ensures { result ≡ value_end s.now at quote }
{
    let i = plain_end(s, at, quote);
    if i < s.len() {
        if s[i] == quote {
            return Ok(i);
        }
    }
    value_rest(s, at, quote, i)
}

// Behind the line's end that a text may begin with.
fn line_passed(s: &[u8], at: usize) -> usize
    ensures { value_from s.now at 0x3C result ≡ text_end s.now at }
{
    if at < s.len() {
        if s[at] == 0x0A {
            return at + 1;
        }
    }
    at
}

// The place of the < that ends a text, which begins at a place.
pub fn text_end(s: &[u8], at: usize) -> Result<usize, Stop>
    ensures { result ≡ text_end s.now at }
{
    let i = plain_end(s, line_passed(s, at), b'<');
    if i < s.len() {
        if s[i] == b'<' {
            return Ok(i);
        }
    }
    value_rest(s, at, b'<', i)
}
