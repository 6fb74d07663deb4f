// A tag's declarations laid down in an array of numbers.
ghost use Rattle.std.specs.Prelude.{◌≡◌, cond, ◌+◌, ◌*◌, ◌≤◌, length, Ok, Err};
ghost use Rattle.laws.specs.Lists.{any};
ghost use Rattle.laws.specs.Gather.{gather};
ghost use Rattle.laws.specs.Over.{overwrite};
ghost use Rattle.lexer.specs.Attrs.{attrs_in};
ghost use Rattle.reader.specs.declared.NamespaceError.TheVariants.{BadPrefix};
ghost use Rattle.reader.specs.Spans.{kind_of};
ghost use Rattle.reader.specs.Namespaces.{declared_by, declarations_of, refused_binding};
ghost use Rattle.reader.specs.Stored.{binding_numbers, laid_bindings, fitting, declared_of};

use lexer::Attr;
use reader::bindings::narrow;
use reader::kinds::{kind_of, refused_binding};
use reader::{Binding, Kind, NamespaceError, Span};
use tags::attr_in;

// The n-th binding's four numbers.
fn put_binding(own: &mut [u32], n: usize, b: Binding)
    requires { 4 * n + 4 ≤ length own.old }
    ensures { own.new ≡ overwrite own.old (4 * n) (binding_numbers b) }
{
    let at = 4 * n;
    own[at] = narrow(b.prefix.at);
    own[at + 1] = narrow(b.prefix.len);
    own[at + 2] = narrow(b.uri.at);
    own[at + 3] = narrow(b.uri.len);
}

// A declaration laid down as the n-th, unless 5 refuses it.
fn keep_binding(s: &[u8], b: Binding, own: &mut [u32], n: usize) -> Result<usize, NamespaceError>
    requires { 4 * n + 4 ≤ length own.old }
    ensures { let refused = refused_binding s.now b in
        (result ≡ cond refused (Err BadPrefix) (Ok (n + 1)))
        × (own.new ≡ cond refused own.old (overwrite own.old (4 * n) (binding_numbers b))) }
{
    if refused_binding(s, b) {
        return Err(NamespaceError::BadPrefix);
    }
    put_binding(own, n, b);
    Ok(n + 1)
}

// The declaration that an attribute makes, if it makes one, behind n others.
fn declare_one(s: &[u8], a: Attr, own: &mut [u32], n: usize) -> Result<usize, NamespaceError>
    requires { 4 * n + 4 ≤ length own.old }
    ensures { let t = s.now in
        let ds = declared_by (kind_of t a.name) a in
        (result ≡ cond (any (refused_binding t) ds) (Err BadPrefix) (Ok (n + length ds)))
        × (own.new ≡ overwrite own.old (4 * n) (gather binding_numbers (fitting t ds))) }
{
    let name = a.name;
    let uri = Span::between(a.value, a.stop);
    match kind_of(s, name) {
        Kind::Plain | Kind::Prefixed => Ok(n),
        Kind::Default => {
            let prefix = Span { at: 0, len: 0 };
            keep_binding(s, Binding { prefix, uri }, own, n)
        }
        Kind::Declares => {
            let prefix = Span::between(name.part, name.end);
            keep_binding(s, Binding { prefix, uri }, own, n)
        }
    }
}

// A tag's declarations, laid down from the array's first place on, up to one that 5 refuses; how many they are.
pub fn declare(
    s: &[u8],
    attrs: &[usize; 80],
    count: usize,
    own: &mut [u32; 64],
) -> Result<usize, NamespaceError>
    ensures { let t = s.now in
        let ds = declarations_of t (attrs_in attrs.now count) in
        (result ≡ declared_of t ds) × (own.new ≡ laid_bindings (fitting t ds) own.old) }
{
    let mut n = 0;
    for i in 0..count.min(16) {
        n = declare_one(s, attr_in(attrs, i), own, n)?;
    }
    Ok(n)
}
