// Attributes and tags, as bytes.
#![tactic(auto)]

ghost use Rattle.std.specs.Prelude.{◌≡◌, [], ◌*◌, ◌<◌, length};
ghost use Rattle.laws.specs.Over.{overwrite};
ghost use Rattle.lexer.specs.Attrs.{attr_numbers, laid, attr_in};
ghost use Rattle.lexer.specs.Tags.{wanted, equals_end, quoted_at, attribute_at, slash_at, turn_behind, turn_at, attrs_from, tag_at, end_tag_at};

use lexer::names::{can_start_part, name_at, spaces_end};
use lexer::{Attr, EndTag, Name, Stop, Tag, Turn};
use values::value_end;

// The place behind this byte, which must stand here.
pub fn want(s: &[u8], at: usize, byte: u8) -> Result<usize, Stop>
    ensures { result ≡ wanted s.now at byte }
{
    if s.len() <= at {
        return Err(Stop::Cut);
    }
    if s[at] == byte {
        return Ok(at + 1);
    }
    Err(Stop::Bad(at))
}

// Space, = and space: the place of the quote.
pub fn equals_end(s: &[u8], at: usize) -> Result<usize, Stop>
    ensures { result ≡ equals_end s.now at }
{
    let i = spaces_end(s, at)?;
    let behind = want(s, i, b'=')?;
    spaces_end(s, behind)
}

// The value whose quote stands at a place, behind a name.
fn quoted_at(s: &[u8], name: Name, at: usize) -> Result<Attr, Stop>
    ensures { result ≡ quoted_at s.now name at }
{
    if s.len() <= at {
        return Err(Stop::Cut);
    }
    let quote = s[at];
    if (quote == 0x22) | (quote == 0x27) {
        let value = at + 1;
        let stop = value_end(s, value, quote)?;
        return Ok(Attr { name, value, stop });
    }
    Err(Stop::Bad(at))
}

// The attribute whose name begins at a place.
pub fn attribute_at(s: &[u8], at: usize) -> Result<Attr, Stop>
    ensures { result ≡ attribute_at s.now at }
{
    let name = name_at(s, at)?;
    let quote = equals_end(s, name.end)?;
    quoted_at(s, name, quote)
}

// The end of a tag that ends in />, its / at a place; or of a declaration, its ? there.
pub fn slash_at(s: &[u8], at: usize) -> Result<Turn, Stop>
    ensures { result ≡ slash_at s.now at }
{
    if s.len() <= at {
        return Err(Stop::Cut);
    }
    let next = want(s, at + 1, b'>')?;
    Ok(Turn::Close(next, true))
}

// What stands behind a tag's name or an attribute, behind the space from `at` to i.
fn turn_behind(s: &[u8], at: usize, i: usize) -> Result<Turn, Stop>
    ensures { result ≡ turn_behind s.now at i }
{
    if s.len() <= i {
        return Err(Stop::Cut);
    }
    let b = s[i];
    if b == b'>' {
        return Ok(Turn::Close(i + 1, false));
    }
    if b == b'/' {
        return slash_at(s, i);
    }
    if i == at {
        return Err(Stop::Bad(i));
    }
    if can_start_part(b) {
        return Ok(Turn::Attribute(i));
    }
    Err(Stop::Bad(i))
}

// What stands behind a tag's name or an attribute that ends at a place.
pub fn turn_at(s: &[u8], at: usize) -> Result<Turn, Stop>
    ensures { result ≡ turn_at s.now at }
{
    let i = spaces_end(s, at)?;
    turn_behind(s, at, i)
}

// Stores the k-th attribute.
fn put_attr(numbers: &mut [usize], k: usize, a: Attr)
    requires { (k < 16) × (length numbers.old ≡ 80) }
    ensures { numbers.new ≡ overwrite numbers.old (5 * k) (attr_numbers a) }
{
    let at = 5 * k;
    numbers[at] = a.name.at;
    numbers[at + 1] = a.name.part;
    numbers[at + 2] = a.name.end;
    numbers[at + 3] = a.value;
    numbers[at + 4] = a.stop;
}

// The attributes behind a tag's name.
fn attrs_from(s: &[u8], name: Name, attrs: &mut [usize; 80]) -> Result<Tag, Stop>
    ensures answer { result ≡ (attrs_from s.now name [] 16 name.end).answer }
    ensures array { attrs.new ≡ laid (attrs_from s.now name [] 16 name.end).attrs attrs.old }
{
    let mut at = name.end;
    let mut count: usize = 0;
    loop {
        match turn_at(s, at)? {
            Turn::Close(next, empty) => {
                return Ok(Tag {
                    name,
                    count,
                    next,
                    empty,
                });
            }
            Turn::Attribute(i) => {
                if count == 16 {
                    return Err(Stop::Long(i));
                }
                let a = attribute_at(s, i)?;
                put_attr(attrs, count, a);
                at = a.stop + 1;
                count += 1;
            }
        }
    }
}

// The start tag from behind its < on; its attributes go to the array.
pub fn start_tag(s: &[u8], at: usize, attrs: &mut [usize; 80]) -> Result<Tag, Stop>
    ensures { (result ≡ (tag_at s.now at).answer) × (attrs.new ≡ laid (tag_at s.now at).attrs attrs.old) }
{
    let name = name_at(s, at)?;
    attrs_from(s, name, attrs)
}

// The k-th attribute of 80 numbers; of zeros where they have none, as the definitions read them.
fn attr_of(numbers: &[usize], k: usize) -> Attr
    requires { length numbers.now ≡ 80 }
    ensures { result ≡ attr_in numbers.now k }
{
    if 16 <= k {
        let name = Name {
            at: 0,
            part: 0,
            end: 0,
        };
        return Attr {
            name,
            value: 0,
            stop: 0,
        };
    }
    let at = 5 * k;
    let name = Name {
        at: numbers[at],
        part: numbers[at + 1],
        end: numbers[at + 2],
    };
    Attr {
        name,
        value: numbers[at + 3],
        stop: numbers[at + 4],
    }
}

// The k-th attribute of the array; of zeros where the array has none.
pub fn attr_in(attrs: &[usize; 80], k: usize) -> Attr
    ensures { result ≡ attr_in attrs.now k }
{
    attr_of(attrs, k)
}

// The end tag from behind its </ on.
pub fn end_tag(s: &[u8], at: usize) -> Result<EndTag, Stop>
    ensures { result ≡ end_tag_at s.now at }
{
    let name = name_at(s, at)?;
    let i = spaces_end(s, name.end)?;
    let next = want(s, i, b'>')?;
    Ok(EndTag { name, next })
}
