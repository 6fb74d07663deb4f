// What an attribute's name makes of it, and which declarations 5 refuses.
ghost use Rattle.std.specs.Prelude.{◌≡◌, ℕ, eqb};
ghost use Rattle.laws.specs.Lists.{any, all};
ghost use Rattle.lexer.specs.Attrs.{attrs_in};
ghost use Rattle.reader.specs.Spans.{between, bytes_of, whole_span, prefix_span, kind_of};
ghost use Rattle.reader.specs.Namespaces.{refused_binding};
ghost use Rattle.reader.specs.Stored.{is_declaration};
ghost use Rattle.reader.specs.Known.{plain_attr};

use crate::{Binding, Kind};
use compare::{is_xml_uri, is_xmlns_uri, part_of, same};
use lexer::{Attr, Name};
use tags::attr_in;

// The bytes from a place up to another.
pub fn bytes_between(s: &[u8], from: usize, to: usize) -> &[u8]
    ensures { result.now ≡ bytes_of s.now (between from to) }
{
    part_of(s, from, to.saturating_sub(from))
}

// The bytes of a name's prefix, without the colon.
pub fn prefix_of(s: &[u8], name: Name) -> &[u8]
    ensures { result.now ≡ bytes_of s.now (prefix_span name) }
{
    bytes_between(s, name.at, name.part.saturating_sub(1))
}

// The bytes of a name whole.
pub fn whole_of(s: &[u8], name: Name) -> &[u8]
    ensures { result.now ≡ bytes_of s.now (whole_span name) }
{
    bytes_between(s, name.at, name.end)
}

// What an attribute's name makes of it.
#[inline]
pub fn kind_of(s: &[u8], name: Name) -> Kind
    ensures { result ≡ kind_of s.now name }
{
    if name.at < name.part {
        if same(prefix_of(s, name), b"xmlns") {
            Kind::Declares
        } else {
            Kind::Prefixed
        }
    } else if same(whole_of(s, name), b"xmlns") {
        Kind::Default
    } else {
        Kind::Plain
    }
}

// Is it a declaration's?
pub fn is_declaration(kind: Kind) -> bool
    ensures { result ≡ is_declaration kind }
{
    matches!(kind, Kind::Default | Kind::Declares)
}

// Is there an & in it?
fn has_reference(uri: &[u8]) -> bool
    ensures { result ≡ any (λ (b : ℕ). eqb b 0x26) uri.now }
{
    uri.contains(&b'&')
}

// Would 5 refuse this declaration?
pub fn refused_binding(s: &[u8], b: Binding) -> bool
    ensures { result ≡ refused_binding s.now b }
{
    let prefix = part_of(s, b.prefix.at, b.prefix.len);
    let uri = part_of(s, b.uri.at, b.uri.len);
    let reserved = same(prefix, b"xml") | same(prefix, b"xmlns") | uri.is_empty();
    let taken = is_xml_uri(uri) | is_xmlns_uri(uri) | has_reference(uri);
    !prefix.is_empty() & reserved | taken
}

// Does an attribute's name stand in the scene, without a prefix, and not as long as xmlns?
fn is_plain(s: &[u8], a: Attr) -> bool
    ensures { result ≡ plain_attr s.now a }
{
    let name = a.name;
    (name.part <= name.at) & (name.end.saturating_sub(name.at) != 5) & (name.end <= s.len())
}

// Is each of a tag's attributes plain, so that it declares nothing and is in no namespace?
pub fn all_plain(s: &[u8], attrs: &[usize; 80], count: usize) -> bool
    ensures { result ≡ all (plain_attr s.now) (attrs_in attrs.now count) }
{
    (0..count.min(16)).all(|i| is_plain(s, attr_in(attrs, i)))
}
