// The attributes of a tag that are no declarations, each with its namespace's class and URI.
ghost use Rattle.std.specs.Prelude.{◌≡◌, List, [], true, ℕ, ◌+◌, ◌*◌, ◌%◌, ◌^◌, ◌≤◌, ◌<◌, length, get_or};
ghost use Rattle.laws.specs.Lists.{all, tabulate};
ghost use Rattle.laws.specs.Members.{All};
ghost use Rattle.laws.specs.Over.{overwrite};
ghost use Rattle.table.specs.Table.{Table, table_of};
ghost use Rattle.lexer.specs.Attrs.{attrs_in};
ghost use Rattle.reader.specs.Namespaces.{Namespace};
ghost use Rattle.reader.specs.Stored.{Coded, stored_space, coded, found_in};
ghost use Rattle.reader.specs.Known.{Within, plain_attr};
ghost use Rattle.model.specs.Elements as elements;
ghost use Rattle.attributes.specs.Attributes.{placing_of, given_numbers, given_by, givens_of, laid_givens, given_in, code_namespaces, numbers_from, sections_after, attributes_in, sections_in};
ghost use Rattle.attributes.specs.Known.{classes_in, ClassesAt, placed_by};

use crate::{HELD, Placing};
use compare::part_of;
use lexer::Attr;
use namespaces::spaces::found_in;
use reader::bindings::binding_in;
use reader::kinds::{is_declaration, kind_of};
use reader::{Found, Scope, Span};
use table::Header;
use table::uris::class_of;
use tags::attr_in;

// A number as 32 bits hold it: `as` must lose nothing, so the rest is taken first.
pub fn narrow(x: usize) -> u32
    ensures { result ≡ x % 2 ^ 32 }
{
    (x % 4294967296) as u32
}

// A class without a place.
fn without_place(class: u8) -> Placing
    ensures { result ≡ record { class = class; at = 0; len = 0 } }
{
    Placing {
        class,
        at: 0,
        len: 0,
    }
}

// A class, and for class 255 where its URI stands.
fn placed(class: u8, uri: Span) -> Placing
    ensures { result ≡ placed_by class uri }
{
    if class == 255 {
        Placing {
            class,
            at: uri.at,
            len: uri.len,
        }
    } else {
        without_place(class)
    }
}

// The class that is kept of the k-th binding.
fn known_class(known: &[u64; 2 * Scope::KNOWN], k: usize) -> u8
    requires { k < 80 }
    ensures { result ≡ get_or known.now (80 + k) 0 % 256 }
{
    (known[80 + k] % 256) as u8
}

// The namespace of what was found, by the classes that are kept.
pub fn space_of(
    own: &[u32; 64],
    outer: &[u32; 256],
    bound: usize,
    known: &[u64; 2 * Scope::KNOWN],
    f: Found,
) -> Placing
    requires { (bound ≤ 64) × Within 16 64 f }
    ensures { (table : List ℕ) (header : Header) (s : List ℕ) (owned : ℕ) → header.namespaces < 256
        → ClassesAt (table_of table header) s outer.now bound 0 known.now
        → ClassesAt (table_of table header) s own.now owned bound known.now
        → Within owned bound f
        → result ≡ placing_of (elements.space_of (table_of table header) s (stored_space own.now outer.now f)) }
{
    match f {
        Found::Nothing | Found::Unbound => without_place(0),
        Found::Xml => without_place(254),
        Found::Own(k) => {
            let b = binding_in(own, k);
            placed(known_class(known, bound + k), b.uri)
        }
        Found::Open(k) => {
            let b = binding_in(outer, k);
            placed(known_class(known, k), b.uri)
        }
    }
}

// The classes of the first n bindings, kept from a place on.
pub fn put_classes(
    table: &[u8],
    header: Header,
    s: &[u8],
    bindings: &[u32],
    n: usize,
    from: usize,
    known: &mut [u64; 2 * Scope::KNOWN],
)
    requires { from + n ≤ 80 }
    ensures { known.new ≡ overwrite known.old (80 + from) (classes_in (table_of table.now header) s.now bindings.now n) }
{
    for k in 0..n {
        let b = binding_in(bindings, k);
        let class = class_of(table, header, part_of(s, b.uri.at, b.uri.len));
        known[80 + from + k] = u64::from(class);
    }
}

// Stores the k-th attribute: its eight numbers.
fn put_given(attributes: &mut [u32; HELD], k: usize, a: Attr, space: Placing, code: usize)
    requires { k < 16 }
    ensures { attributes.new ≡ overwrite attributes.old (8 * k) (given_numbers (given_by a space code)) }
{
    let name = a.name;
    attributes[8 * k..8 * k + 8].copy_from_slice(&[
        narrow(name.part),
        narrow(name.end.saturating_sub(name.part)),
        narrow(a.value),
        narrow(a.stop.saturating_sub(a.value)),
        u32::from(space.class),
        narrow(space.at),
        narrow(space.len),
        narrow(code),
    ]);
}

// The attributes that are no declarations, laid down from the array's first place on; how many.
pub fn hold(
    s: &[u8],
    attrs: &[usize; 80],
    count: usize,
    own: &[u32; 64],
    outer: &[u32; 256],
    bound: usize,
    known: &[u64; 2 * Scope::KNOWN],
    codes: &[usize; 16],
    attributes: &mut [u32; HELD],
) -> usize
    requires { (bound ≤ 64) × All (λ (c : Coded). c.code < 82) (coded (attrs_in attrs.now count) codes.now) }
    ensures { (result ≤ 16) × (
        (table : List ℕ) (header : Header) (owned : ℕ) → header.namespaces < 256
        → ClassesAt (table_of table header) s.now outer.now bound 0 known.now
        → ClassesAt (table_of table header) s.now own.now owned bound known.now
        → All (λ (c : Coded). Within owned bound (found_in c.code)) (coded (attrs_in attrs.now count) codes.now)
        → (
        let gs = givens_of (table_of table header) s.now own.now outer.now (coded (attrs_in attrs.now count) codes.now) in
        (result ≡ length gs) × (attributes.new ≡ laid_givens gs attributes.old)
        )) }
{
    let mut n = 0;
    for i in 0..count.min(16) {
        let a = attr_in(attrs, i);
        if !is_declaration(kind_of(s, a.name)) {
            let code = codes[i];
            let space = space_of(own, outer, bound, known, found_in(code));
            put_given(attributes, n, a, space, code);
            n += 1;
        }
    }
    n
}

// The same of a tag whose attributes are all plain: each stays with the element, section 0.
pub fn hold_plain(attrs: &[usize; 80], count: usize, attributes: &mut [u32; HELD]) -> usize
    ensures { (result ≤ 16) × (
        (t : Table) (s own outer codes : List ℕ) (e : Namespace)
        → all (plain_attr s) (attrs_in attrs.now count) ≡ true
        → All (λ (c : Coded). c.code ≡ 0) (coded (attrs_in attrs.now count) codes)
        → (
        let gs = givens_of t s own outer (coded (attrs_in attrs.now count) codes) in
        let ns = code_namespaces own outer (tabulate (given_in (attributes_in attributes.new)) 0 result) in
        (result ≡ length gs)
        × (attributes_in attributes.new ≡ laid_givens gs (attributes_in attributes.old))
        × (0 ≡ length (sections_after s e [] ns))
        × (sections_in attributes.new ≡ overwrite (sections_in attributes.old) 0 (numbers_from s e [] ns))
        )) }
{
    let most = count.min(16);
    for i in 0..most {
        put_given(attributes, i, attr_in(attrs, i), without_place(0), 0);
        attributes[128 + i] = 0;
    }
    most
}
