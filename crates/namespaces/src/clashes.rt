// Number 6: two attributes of one name as written, or of one namespace and part.
ghost use Rattle.std.specs.Prelude.{◌≡◌, ◌+◌, ◌≤◌, ◌<◌, drop, IfSome};
ghost use Rattle.laws.specs.Lists.{same_list, any};
ghost use Rattle.lexer.specs.Attrs.{attrs_in};
ghost use Rattle.reader.specs.Spans.{bytes_of, whole_span, part_span, kind_of};
ghost use Rattle.reader.specs.Namespaces.{uri_of, same_namespace};
ghost use Rattle.reader.specs.Stored.{at_most, stored_space, is_declaration, coded, coded_at, clashes, twice_in};
ghost use Rattle.reader.specs.Keys.{EndsWith, Keys};

use crate::spaces::found_in;
use compare::{part_of, same};
use lexer::{Attr, Name};
use reader::Found;
use reader::bindings::binding_in;
use reader::kinds::{bytes_between, is_declaration, kind_of, whole_of};
use tags::attr_in;

// The URI of what was found; of no bytes where there is none.
fn uri_of<'a>(s: &'a [u8], own: &[u32; 64], outer: &[u32; 256], f: Found) -> &'a [u8]
    ensures { result.now ≡ uri_of s.now (stored_space own.now outer.now f) }
{
    match f {
        Found::Nothing | Found::Unbound => b"",
        Found::Xml => b"http://www.w3.org/XML/1998/namespace",
        Found::Own(k) => {
            let uri = binding_in(own, k).uri;
            part_of(s, uri.at, uri.len)
        }
        Found::Open(k) => {
            let uri = binding_in(outer, k).uri;
            part_of(s, uri.at, uri.len)
        }
    }
}

// Is this the URI of what was found?
pub fn has_uri(s: &[u8], own: &[u32; 64], outer: &[u32; 256], f: Found, uri: &[u8]) -> bool
    ensures { result ≡ same_list (uri_of s.now (stored_space own.now outer.now f)) uri.now }
{
    same(uri_of(s, own, outer, f), uri)
}

// Are the namespaces of what was found equal?
pub fn same_space(s: &[u8], own: &[u32; 64], outer: &[u32; 256], f: Found, g: Found) -> bool
    ensures { result ≡ same_namespace s.now (stored_space own.now outer.now f) (stored_space own.now outer.now g) }
{
    has_uri(s, own, outer, f, uri_of(s, own, outer, g))
}

// Are two names the same as written?
fn same_name(s: &[u8], a: Name, b: Name) -> bool
    ensures { result ≡ same_list (bytes_of s.now (whole_span a)) (bytes_of s.now (whole_span b)) }
{
    same(whole_of(s, a), whole_of(s, b))
}

// Are the parts behind their prefixes the same?
fn same_part(s: &[u8], a: Name, b: Name) -> bool
    ensures { result ≡ same_list (bytes_of s.now (part_span a)) (bytes_of s.now (part_span b)) }
{
    same(
        bytes_between(s, a.part, a.end),
        bytes_between(s, b.part, b.end),
    )
}

// Is an attribute of this name a declaration?
fn declares(s: &[u8], name: Name) -> bool
    ensures { result ≡ is_declaration (kind_of s.now name) }
{
    is_declaration(kind_of(s, name))
}

// Number 6 of two attributes with their numbers.
fn clash(
    s: &[u8],
    own: &[u32; 64],
    outer: &[u32; 256],
    a: Attr,
    x: usize,
    b: Attr,
    y: usize,
) -> bool
    ensures { result ≡ clashes s.now own.now outer.now (record { attr = a; code = x }) (record { attr = b; code = y }) }
{
    if same_name(s, a.name, b.name) {
        return true;
    }
    let named = !declares(s, a.name) & !declares(s, b.name) & same_part(s, a.name, b.name);
    named && same_space(s, own, outer, found_in(x), found_in(y))
}

// Do the i-th and the j-th attribute clash?
fn clash_at(
    s: &[u8],
    attrs: &[usize; 80],
    own: &[u32; 64],
    outer: &[u32; 256],
    spaces: &[usize; 16],
    i: usize,
    j: usize,
) -> bool
    requires { (i < 16) × (j < 16) }
    ensures { result ≡ clashes s.now own.now outer.now (coded_at attrs.now spaces.now i) (coded_at attrs.now spaces.now j) }
{
    let a = attr_in(attrs, i);
    let b = attr_in(attrs, j);
    clash(s, own, outer, a, spaces[i], b, spaces[j])
}

// The last byte of a name that stands in the scene, its part not empty.
fn last_of(s: &[u8], name: Name) -> Option<u8>
    ensures { IfSome result (λ last. EndsWith s.now name last) }
{
    let end = name.end;
    if name.at < end && name.part < end && end <= s.len() {
        Some(s[end - 1])
    } else {
        None
    }
}

// A key for each of the first `most` attributes: its name's last byte. Where a name has none, all keys are the same.
fn keys_of(s: &[u8], attrs: &[usize; 80], most: usize) -> [u8; 16]
    requires { most ≤ 16 }
    ensures { Keys s.now attrs.now most result }
{
    let mut keys = [0; 16];
    for i in 0..most {
        match last_of(s, attr_in(attrs, i).name) {
            Some(last) => keys[i] = last,
            None => return [0; 16],
        }
    }
    keys
}

// Does an attribute behind the i-th clash with it? Only those of the same key are looked at.
fn clash_behind(
    s: &[u8],
    attrs: &[usize; 80],
    count: usize,
    own: &[u32; 64],
    outer: &[u32; 256],
    spaces: &[usize; 16],
    keys: &[u8; 16],
    i: usize,
) -> bool
    requires { (i < 16) × Keys s.now attrs.now (at_most 16 count) keys.now }
    ensures { let array = attrs.now in
        let codes = spaces.now in
        result ≡ any (clashes s.now own.now outer.now (coded_at array codes i)) (drop (i + 1) (coded (attrs_in array count) codes)) }
{
    for j in i + 1..count.min(16) {
        if keys[j] == keys[i] && clash_at(s, attrs, own, outer, spaces, i, j) {
            return true;
        }
    }
    false
}

// Do two of a tag's attributes clash?
pub fn twice(
    s: &[u8],
    attrs: &[usize; 80],
    count: usize,
    own: &[u32; 64],
    outer: &[u32; 256],
    spaces: &[usize; 16],
) -> bool
    ensures { result ≡ twice_in s.now own.now outer.now (attrs_in attrs.now count) spaces.now }
{
    let most = count.min(16);
    if most < 2 {
        return false;
    }
    let keys = keys_of(s, attrs, most);
    for i in 0..most {
        if clash_behind(s, attrs, count, own, outer, spaces, &keys, i) {
            return true;
        }
    }
    false
}
