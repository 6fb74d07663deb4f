// Bindings in arrays of numbers, four to a binding, and a prefix looked up in them.
ghost use Rattle.std.specs.Prelude.{◌≡◌, ◌+◌, ◌≤◌, length, get_or};
ghost use Rattle.laws.specs.Lists.{same_list};
ghost use Rattle.laws.specs.Over.{overwrite};
ghost use Rattle.reader.specs.Spans.{bytes_of};
ghost use Rattle.reader.specs.Stored.{narrowed, binding_in, counted_from_1, look_from, found_open, found_of};
ghost use Rattle.reader.specs.Known.{key_of, keys_in, last_key, Keyed};

use crate::{Binding, Found, Scope, Span};
use compare::{part_of, same};
use lanes::word_at;

// A number as 32 bits hold it: `as` is proved to lose nothing.
pub fn narrow(x: usize) -> u32
    ensures { result ≡ narrowed x }
{
    (x % 4294967296) as u32
}

// What a prefix is looked up among: a tag's own declarations and those that are open, and the keys of their prefixes.
#[derive(Clone, Copy)]
pub struct InScope<'a> {
    pub own: &'a [u32; 4 * Scope::OWN],
    pub owned: usize,
    pub outer: &'a [u32; 4 * Scope::BINDINGS],
    pub bound: usize,
    pub known: &'a [u64; 2 * Scope::KNOWN],
}

// The number at a place; 0 past the end.
fn number_in(l: &[u32], i: usize) -> usize
    ensures { result ≡ get_or l.now i 0 }
{
    l.get(i).copied().unwrap_or(0) as usize
}

// The k-th binding; of zeros past the end, as the definitions read them.
pub fn binding_in(l: &[u32], k: usize) -> Binding
    ensures { result ≡ binding_in l.now k }
{
    if l.len() <= k {
        let none = Span { at: 0, len: 0 };
        return Binding {
            prefix: none,
            uri: none,
        };
    }
    let at = 4 * k;
    Binding {
        prefix: Span {
            at: number_in(l, at),
            len: number_in(l, at + 1),
        },
        uri: Span {
            at: number_in(l, at + 2),
            len: number_in(l, at + 3),
        },
    }
}

// Are the bytes the same? The last eight are compared first: long prefixes mostly differ there, and to compare them whole is a call.
fn same_spelled(a: &[u8], b: &[u8]) -> bool
    ensures { result ≡ same_list a.now b.now }
{
    let n = a.len();
    if n == b.len() && 8 <= n && word_at(a, n - 8) != word_at(b, n - 8) {
        return false;
    }
    same(a, b)
}

// Does the k-th binding have this prefix?
fn is_prefix(s: &[u8], bindings: &[u32], k: usize, prefix: &[u8]) -> bool
    ensures { result ≡ same_list (bytes_of s.now (binding_in bindings.now k).prefix) prefix.now }
{
    let b = binding_in(bindings, k);
    same_spelled(part_of(s, b.prefix.at, b.prefix.len), prefix)
}

// A place counted from 1, from 0; none for 0.
fn counted_from_1(n: usize) -> Option<usize>
    ensures { result ≡ counted_from_1 n }
{
    n.checked_sub(1)
}

// The last of the first `left` bindings with this prefix, counted from 1, by a recursion, as the specification has it; 0 where there is none. A number: a recursion that answers an `Option` is not made a loop.
fn last_with(s: &[u8], bindings: &[u32], left: usize, prefix: &[u8]) -> usize
    ensures { result ≡ look_from s.now bindings.now left prefix.now }
{
    if left == 0 {
        0
    } else if is_prefix(s, bindings, left - 1, prefix) {
        left
    } else {
        last_with(s, bindings, left - 1, prefix)
    }
}

// The last of the first `left` bindings with this prefix.
fn look_up(s: &[u8], bindings: &[u32], left: usize, prefix: &[u8]) -> Option<usize>
    ensures { result ≡ counted_from_1 (look_from s.now bindings.now left prefix.now) }
{
    counted_from_1(last_with(s, bindings, left, prefix))
}

// The declaration in force of a prefix, byte by byte: among the tag's own, then among those round it.
fn find_spelled(s: &[u8], in_scope: InScope, prefix: &[u8]) -> Found
    ensures { result ≡ found_of s.now in_scope.entry.own.now in_scope.entry.owned in_scope.entry.outer.now in_scope.entry.bound prefix.now }
{
    if same(prefix, b"xml") {
        return Found::Xml;
    }
    let InScope {
        own,
        owned,
        outer,
        bound,
        ..
    } = in_scope;
    if let Some(k) = look_up(s, own, owned.min(16), prefix) {
        return Found::Own(k);
    }
    match look_up(s, outer, bound.min(64), prefix) {
        Some(k) => Found::Open(k),
        None => undeclared(prefix),
    }
}

// No declaration is in force of this prefix: the default needs none.
fn undeclared(prefix: &[u8]) -> Found
    ensures { result ≡ found_open prefix.now 0 }
{
    if prefix.is_empty() {
        Found::Nothing
    } else {
        Found::Unbound
    }
}

// A prefix of at most seven bytes as a number: its bytes and its length; 8 of a longer one, which no such prefix has.
fn key_of(prefix: &[u8]) -> u64
    ensures { result ≡ key_of prefix.now }
{
    let n = prefix.len();
    if 7 < n {
        return 8;
    }
    let mut key: u64 = 0;
    for b in prefix {
        key = 256 * key + u64::from(*b);
    }
    8 * key + (n as u64)
}

// The keys of the prefixes of n bindings, from a place of the array on.
pub fn write_keys(s: &[u8], bindings: &[u32], n: usize, from: usize, known: &mut [u64])
    requires { from + n ≤ length known.old }
    ensures { known.new ≡ overwrite known.old from (keys_in s.now bindings.now n) }
{
    for k in 0..n {
        let prefix = binding_in(bindings, k).prefix;
        known[from + k] = key_of(part_of(s, prefix.at, prefix.len));
    }
}

// The same in the array that is kept beside the bindings.
pub fn put_keys(
    s: &[u8],
    bindings: &[u32],
    n: usize,
    from: usize,
    known: &mut [u64; 2 * Scope::KNOWN],
)
    requires { from + n ≤ 80 }
    ensures { known.new ≡ overwrite known.old from (keys_in s.now bindings.now n) }
{
    write_keys(s, bindings, n, from, known);
}

// The last of the first `left` keys that is this one, counted from 1, by a recursion too; 0 where there is none.
fn last_key_from(known: &[u64; 2 * Scope::KNOWN], left: usize, key: u64) -> usize
    requires { left ≤ 80 }
    ensures { result ≡ last_key known.now left key }
{
    if left == 0 {
        0
    } else if known[left - 1] == key {
        left
    } else {
        last_key_from(known, left - 1, key)
    }
}

// The last of the first `left` keys that is this one.
fn last_key(known: &[u64; 2 * Scope::KNOWN], left: usize, key: u64) -> Option<usize>
    requires { left ≤ 80 }
    ensures { result ≡ counted_from_1 (last_key known.now left key) }
{
    counted_from_1(last_key_from(known, left, key))
}

// The declaration in force of a prefix, by its key: those of the open bindings stand first, the tag's own behind them.
pub fn find(s: &[u8], in_scope: InScope, prefix: &[u8]) -> Found
    requires { Keyed s.now in_scope }
    ensures { result ≡ found_of s.now in_scope.entry.own.now in_scope.entry.owned in_scope.entry.outer.now in_scope.entry.bound prefix.now }
{
    if 7 < prefix.len() {
        return find_spelled(s, in_scope, prefix);
    }
    if same(prefix, b"xml") {
        return Found::Xml;
    }
    let InScope {
        owned,
        bound,
        known,
        ..
    } = in_scope;
    match last_key(known, bound + owned, key_of(prefix)) {
        Some(k) if k < bound => Found::Open(k),
        Some(k) => Found::Own(k - bound),
        None => undeclared(prefix),
    }
}
