// What a tag means: its element's namespace and its attributes', and its declarations; numbers 5 and 6.
#![tactic(auto)]

pub mod clashes;
pub mod declarations;
pub mod spaces;

ghost use Rattle.std.specs.Prelude.{◌≡◌, true, cond, ℕ, ◌≤◌, length, Err};
ghost use Rattle.laws.specs.Lists.{any, all};
ghost use Rattle.laws.specs.Over.{overwrite};
ghost use Rattle.lexer.specs.Attrs.{attrs_in};
ghost use Rattle.reader.specs.declared.NamespaceError.TheVariants.{BadPrefix};
ghost use Rattle.reader.specs.Namespaces.{declarations_of, refused_binding};
ghost use Rattle.reader.specs.Stored.{laid_bindings, fitting, declared_of, meant_of, codes_after};
ghost use Rattle.reader.specs.Known.{keys_in, KeysAt, Keyed, plain_attr};

use crate::clashes::twice;
use crate::declarations::declare;
use crate::spaces::{find_element, is_unbound, resolve_all};
use lexer::Name;
use reader::bindings::{InScope, put_keys};
use reader::{Element, NamespaceError, Scope};

// What a tag means whose declarations are laid down.
fn meant_by(
    s: &[u8],
    name: Name,
    attrs: &[usize; 80],
    count: usize,
    plain: bool,
    in_scope: InScope,
    spaces: &mut [usize; 16],
) -> Result<Element, NamespaceError>
    requires { Keyed s.now in_scope × (plain ≡ true → all (plain_attr s.now) (attrs_in attrs.now count) ≡ true) }
    ensures { let t = s.now in
        let all = attrs_in attrs.now count in
        (result ≡ meant_of t in_scope.entry.own.now in_scope.entry.owned in_scope.entry.outer.now in_scope.entry.bound name all)
        × (spaces.new ≡ codes_after t in_scope.entry.own.now in_scope.entry.owned in_scope.entry.outer.now in_scope.entry.bound name all spaces.old) }
{
    let found = find_element(s, in_scope, name);
    if is_unbound(found) {
        return Err(NamespaceError::BadPrefix);
    }
    if !resolve_all(s, attrs, count, plain, in_scope, spaces) {
        return Err(NamespaceError::BadPrefix);
    }
    if twice(s, attrs, count, in_scope.own, in_scope.outer, spaces) {
        return Err(NamespaceError::Duplicate);
    }
    Ok(Element {
        found,
        owned: in_scope.owned,
    })
}

// A tag's declarations laid down, and their keys behind those of the open ones. Plain attributes declare nothing.
fn declare_keys(
    s: &[u8],
    attrs: &[usize; 80],
    count: usize,
    plain: bool,
    own: &mut [u32; 64],
    bound: usize,
    known: &mut [u64; 2 * Scope::KNOWN],
) -> Result<usize, NamespaceError>
    requires { (bound ≤ 64) × (plain ≡ true → all (plain_attr s.now) (attrs_in attrs.now count) ≡ true) }
    ensures { let t = s.now in
        let ds = declarations_of t (attrs_in attrs.now count) in
        let laid = laid_bindings (fitting t ds) own.old in
        (result ≡ declared_of t ds)
        × (own.new ≡ laid)
        × (known.new ≡ cond (any (refused_binding t) ds) known.old (overwrite known.old bound (keys_in t laid (length ds)))) }
{
    if plain {
        return Ok(0);
    }
    let owned = declare(s, attrs, count, own)?;
    put_keys(s, own, owned, bound, known);
    Ok(owned)
}

// What a tag means. Its declarations are laid down in own, the numbers of its attributes in spaces, the keys of its prefixes behind those of the open ones.
pub fn meaning(
    s: &[u8],
    name: Name,
    attrs: &[usize; 80],
    count: usize,
    plain: bool,
    own: &mut [u32; 64],
    outer: &[u32; 256],
    bound: usize,
    known: &mut [u64; 2 * Scope::KNOWN],
    spaces: &mut [usize; 16],
) -> Result<Element, NamespaceError>
    requires { (bound ≤ 64) × KeysAt s.now outer.now bound 0 known.old × (plain ≡ true → all (plain_attr s.now) (attrs_in attrs.now count) ≡ true) }
    ensures { let t = s.now in
        let all = attrs_in attrs.now count in
        let ds = declarations_of t all in
        let laid = laid_bindings (fitting t ds) own.old in
        let refused = any (refused_binding t) ds in
        (result ≡ cond refused (Err BadPrefix) (meant_of t laid (length ds) outer.now bound name all))
        × (own.new ≡ laid)
        × (spaces.new ≡ cond refused spaces.old (codes_after t laid (length ds) outer.now bound name all spaces.old))
        × (known.new ≡ cond refused known.old (overwrite known.old bound (keys_in t laid (length ds)))) }
{
    let owned = declare_keys(s, attrs, count, plain, own, bound, known)?;
    let in_scope = InScope {
        own,
        owned,
        outer,
        bound,
        known,
    };
    meant_by(s, name, attrs, count, plain, in_scope, spaces)
}
