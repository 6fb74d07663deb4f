// The declaration in force of an element and of each attribute, and its number.
ghost use Rattle.std.specs.Prelude.{◌≡◌, true, ℕ, ◌≤◌, ◌<◌, length, replicate, eqb};
ghost use Rattle.laws.specs.Lists.{all};
ghost use Rattle.lexer.specs.Attrs.{attrs_in};
ghost use Rattle.reader.specs.Stored.{at_most, found_element, found_attribute, is_unbound, code_of, found_in, codes_of, laid_numbers};
ghost use Rattle.reader.specs.Known.{Keyed, plain_attr};

use compare::same;
use lexer::Name;
use reader::bindings::{InScope, find};
use reader::kinds::{kind_of, prefix_of};
use reader::{Found, Kind};
use tags::attr_in;

// The declaration in force of an element's name.
pub fn find_element(s: &[u8], in_scope: InScope, name: Name) -> Found
    requires { Keyed s.now in_scope }
    ensures { result ≡ found_element s.now in_scope.entry.own.now in_scope.entry.owned in_scope.entry.outer.now in_scope.entry.bound name }
{
    if name.part <= name.at {
        return find(s, in_scope, b"");
    }
    let prefix = prefix_of(s, name);
    if same(prefix, b"xmlns") {
        Found::Unbound
    } else {
        find(s, in_scope, prefix)
    }
}

// The declaration in force of an attribute's name.
pub fn find_attribute(s: &[u8], in_scope: InScope, name: Name) -> Found
    requires { Keyed s.now in_scope }
    ensures { result ≡ found_attribute s.now in_scope.entry.own.now in_scope.entry.owned in_scope.entry.outer.now in_scope.entry.bound name }
{
    match kind_of(s, name) {
        Kind::Prefixed => find(s, in_scope, prefix_of(s, name)),
        Kind::Plain | Kind::Default | Kind::Declares => Found::Nothing,
    }
}

// Is it a prefix that is unbound?
pub fn is_unbound(f: Found) -> bool
    ensures { result ≡ is_unbound f }
{
    matches!(f, Found::Unbound)
}

// What was found, as a number: arrays of a tag's attributes hold it so.
fn code_of(f: Found) -> usize
    requires { code_of f < 82 }
    ensures { result ≡ code_of f }
{
    match f {
        Found::Nothing | Found::Unbound => 0,
        Found::Xml => 1,
        Found::Own(k) => 2 + k,
        Found::Open(k) => 18 + k,
    }
}

// What a number stands for.
pub fn found_in(code: usize) -> Found
    ensures { result ≡ found_in code }
{
    match code {
        0 => Found::Nothing,
        1 => Found::Xml,
        2..=17 => Found::Own(code - 2),
        _ => Found::Open(code - 18),
    }
}

// The numbers of the attributes, from the array's first place on, up to one whose prefix is unbound; were there none such?
fn resolve(
    s: &[u8],
    attrs: &[usize; 80],
    count: usize,
    in_scope: InScope,
    spaces: &mut [usize; 16],
) -> bool
    requires { Keyed s.now in_scope }
    ensures { let all = attrs_in attrs.now count in
        let codes = codes_of s.now in_scope.entry.own.now in_scope.entry.owned in_scope.entry.outer.now in_scope.entry.bound all in
        (result ≡ eqb (length codes) (length all)) × (spaces.new ≡ laid_numbers codes spaces.old) }
{
    for i in 0..count.min(16) {
        let a = attr_in(attrs, i);
        let f = find_attribute(s, in_scope, a.name);
        if is_unbound(f) {
            return false;
        }
        spaces[i] = code_of(f);
    }
    true
}

// The numbers of plain attributes: all 0.
fn clear_codes(count: usize, spaces: &mut [usize; 16])
    ensures { spaces.new ≡ laid_numbers (replicate (at_most 16 count) 0) spaces.old }
{
    spaces[..count.min(16)].fill(0);
}

// The numbers of the attributes, as resolve lays them; where all are plain, none is looked up.
pub fn resolve_all(
    s: &[u8],
    attrs: &[usize; 80],
    count: usize,
    plain: bool,
    in_scope: InScope,
    spaces: &mut [usize; 16],
) -> bool
    requires { Keyed s.now in_scope × (plain ≡ true → all (plain_attr s.now) (attrs_in attrs.now count) ≡ true) }
    ensures { let all = attrs_in attrs.now count in
        let codes = codes_of s.now in_scope.entry.own.now in_scope.entry.owned in_scope.entry.outer.now in_scope.entry.bound all in
        (result ≡ eqb (length codes) (length all)) × (spaces.new ≡ laid_numbers codes spaces.old) }
{
    if plain {
        clear_codes(count, spaces);
        return true;
    }
    resolve(s, attrs, count, in_scope, spaces)
}
