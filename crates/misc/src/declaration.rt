// The declaration.
ghost use Rattle.std.specs.Prelude.{◌≡◌};
ghost use Rattle.lexer.specs.Declaration.{is_digit, is_letter, is_field_byte, word_end, some_end, version_end, encoding_end, answer_end, standalone_end, field_word, field_value, quoted_end, field_end, turn_from, field_turn, last_rest, standalone_then, encoding_rest, encoding_then, either_then, version_rest, version_then, declaration_end};

use lexer::names::{is_space, spaces_end};
use lexer::{Field, Stop, Turn};
use tags::{equals_end, slash_at, want};

// The place behind this word, which must stand here.
pub fn word_end(s: &[u8], at: usize, word: &[u8]) -> Result<usize, Stop>
    ensures { result ≡ word_end s.now at word.now }
{
    let mut i = at;
    for k in 0..word.len() {
        if s.len() <= i {
            return Err(Stop::Cut);
        }
        if s[i] != word[k] {
            return Err(Stop::Bad(i));
        }
        i += 1;
    }
    Ok(i)
}

fn is_digit(b: u8) -> bool
    ensures { result ≡ is_digit b }
{
    (0x30 <= b) & (b <= 0x39)
}

fn is_letter(b: u8) -> bool
    ensures { result ≡ is_letter b }
{
    (0x41 <= b) & (b <= 0x5A) | (0x61 <= b) & (b <= 0x7A)
}

// Whether a byte may stand any number of times in a field's value.
fn is_fit(field: Field, b: u8) -> bool
    ensures { result ≡ is_field_byte field b }
{
    match field {
        Field::Version => is_digit(b),
        Field::Encoding => { is_letter(b) | is_digit(b) | (b == 0x2E) | (b == 0x5F) | (b == 0x2D) }
        Field::Standalone => false,
    }
}

// Such bytes, one at least, and the quote.
fn some_end(s: &[u8], field: Field, at: usize, quote: u8) -> Result<usize, Stop>
    ensures { result ≡ some_end s.now field at quote }
{
    for i in at..s.len() {
        let b = s[i];
        if (i != at) & (b == quote) {
            return Ok(i + 1);
        }
        if !is_fit(field, b) {
            return Err(Stop::Bad(i));
        }
    }
    Err(Stop::Cut)
}

fn version_end(s: &[u8], at: usize, quote: u8) -> Result<usize, Stop>
    ensures { result ≡ version_end s.now at quote }
{
    let i = word_end(s, at, b"1.")?;
    some_end(s, Field::Version, i, quote)
}

fn encoding_end(s: &[u8], at: usize, quote: u8) -> Result<usize, Stop>
    ensures { result ≡ encoding_end s.now at quote }
{
    if s.len() <= at {
        return Err(Stop::Cut);
    }
    if is_letter(s[at]) {
        return some_end(s, Field::Encoding, at, quote);
    }
    Err(Stop::Bad(at))
}

// yes or no.
fn answer_end(s: &[u8], at: usize) -> Result<usize, Stop>
    ensures { result ≡ answer_end s.now at }
{
    if s.len() <= at {
        return Err(Stop::Cut);
    }
    if s[at] == b'y' {
        return word_end(s, at, b"yes");
    }
    word_end(s, at, b"no")
}

fn standalone_end(s: &[u8], at: usize, quote: u8) -> Result<usize, Stop>
    ensures { result ≡ standalone_end s.now at quote }
{
    let i = answer_end(s, at)?;
    want(s, i, quote)
}

// The place behind a field's word.
fn field_word_end(s: &[u8], field: Field, at: usize) -> Result<usize, Stop>
    ensures { result ≡ word_end s.now at (field_word field) }
{
    match field {
        Field::Version => word_end(s, at, b"version"),
        Field::Encoding => word_end(s, at, b"encoding"),
        Field::Standalone => word_end(s, at, b"standalone"),
    }
}

// The place behind a field's value and the quote.
fn field_value_end(s: &[u8], field: Field, at: usize, quote: u8) -> Result<usize, Stop>
    ensures { result ≡ field_value field s.now at quote }
{
    match field {
        Field::Version => version_end(s, at, quote),
        Field::Encoding => encoding_end(s, at, quote),
        Field::Standalone => standalone_end(s, at, quote),
    }
}

// A field's value, its quote at a place.
fn quoted_end(s: &[u8], field: Field, at: usize) -> Result<usize, Stop>
    ensures { result ≡ quoted_end s.now field at }
{
    if s.len() <= at {
        return Err(Stop::Cut);
    }
    let quote = s[at];
    if (quote == 0x22) | (quote == 0x27) {
        return field_value_end(s, field, at + 1, quote);
    }
    Err(Stop::Bad(at))
}

// A field, its word at a place.
fn field_end(s: &[u8], field: Field, at: usize) -> Result<usize, Stop>
    ensures { result ≡ field_end s.now field at }
{
    let word = field_word_end(s, field, at)?;
    let quote = equals_end(s, word)?;
    quoted_end(s, field, quote)
}

// What stands behind a field, behind the space from `at` to i.
fn turn_from(s: &[u8], at: usize, i: usize) -> Result<Turn, Stop>
    ensures { result ≡ turn_from s.now at i }
{
    if s.len() <= i {
        return Err(Stop::Cut);
    }
    if s[i] == b'?' {
        return slash_at(s, i);
    }
    if i == at {
        return Err(Stop::Bad(i));
    }
    Ok(Turn::Attribute(i))
}

// What stands behind a field that ends at a place.
fn field_turn(s: &[u8], at: usize) -> Result<Turn, Stop>
    ensures { result ≡ field_turn s.now at }
{
    let i = spaces_end(s, at)?;
    turn_from(s, at, i)
}

// Behind the last field.
fn last_rest(s: &[u8], at: usize) -> Result<usize, Stop>
    ensures { result ≡ last_rest s.now at }
{
    match field_turn(s, at)? {
        Turn::Close(next, _) => Ok(next),
        Turn::Attribute(i) => Err(Stop::Bad(i)),
    }
}

fn standalone_then(s: &[u8], at: usize) -> Result<usize, Stop>
    ensures { result ≡ standalone_then s.now at }
{
    let i = field_end(s, Field::Standalone, at)?;
    last_rest(s, i)
}

// Behind the encoding.
fn encoding_rest(s: &[u8], at: usize) -> Result<usize, Stop>
    ensures { result ≡ encoding_rest s.now at }
{
    match field_turn(s, at)? {
        Turn::Close(next, _) => Ok(next),
        Turn::Attribute(i) => standalone_then(s, i),
    }
}

fn encoding_then(s: &[u8], at: usize) -> Result<usize, Stop>
    ensures { result ≡ encoding_then s.now at }
{
    let i = field_end(s, Field::Encoding, at)?;
    encoding_rest(s, i)
}

// An encoding or a standalone, its word at a place.
fn either_then(s: &[u8], at: usize) -> Result<usize, Stop>
    ensures { result ≡ either_then s.now at }
{
    if s.len() <= at {
        return Err(Stop::Cut);
    }
    if s[at] == b'e' {
        return encoding_then(s, at);
    }
    standalone_then(s, at)
}

// Behind the version.
fn version_rest(s: &[u8], at: usize) -> Result<usize, Stop>
    ensures { result ≡ version_rest s.now at }
{
    match field_turn(s, at)? {
        Turn::Close(next, _) => Ok(next),
        Turn::Attribute(i) => either_then(s, i),
    }
}

fn version_then(s: &[u8], at: usize) -> Result<usize, Stop>
    ensures { result ≡ version_then s.now at }
{
    let i = field_end(s, Field::Version, at)?;
    version_rest(s, i)
}

// The declaration from behind its <?xml on.
pub fn declaration_end(s: &[u8], at: usize) -> Result<usize, Stop>
    ensures { result ≡ declaration_end s.now at }
{
    if s.len() <= at {
        return Err(Stop::Cut);
    }
    if !is_space(s[at]) {
        return Err(Stop::Bad(at));
    }
    let i = spaces_end(s, at)?;
    version_then(s, i)
}
