// The scopes of open elements: numbers 21 and 22, names that were read before, number 4.
ghost use Rattle.std.specs.Prelude.{◌≡◌};
ghost use Rattle.laws.specs.Lists.{same_list};
ghost use Rattle.reader.specs.Spans.{bytes_of};
ghost use Rattle.reader.specs.Events.{colon_end, part_of};
ghost use Rattle.reader.specs.Scope.{fresh_scope, opened_of, closed_of, name_in};
ghost use Rattle.reader.specs.Pushed.{pushed_bindings};

use crate::bindings::narrow;
use crate::{Scope, ScopeError, Span};
use compare::{part_of, same};

// The first owned bindings of own laid behind those that are bound, where there is room for them.
pub fn push_bindings(
    bindings: &mut [u32; 4 * Scope::BINDINGS],
    bound: usize,
    own: &[u32; 4 * Scope::OWN],
    owned: usize,
)
    ensures { bindings.new ≡ pushed_bindings bindings.old bound own.now owned }
{
    if Scope::OWN < owned || Scope::BINDINGS - owned < bound {
        return;
    }
    let from = 4 * bound;
    let n = 4 * owned;
    bindings[from..from + n].copy_from_slice(&own[..n]);
}

// The name of the k-th level.
pub fn name_in(levels: &[u32; 3 * Scope::DEPTH], k: usize) -> Span
    ensures { result ≡ name_in levels.now k }
{
    if Scope::DEPTH <= k {
        return Span { at: 0, len: 0 };
    }
    Span {
        at: levels[3 * k] as usize,
        len: levels[3 * k + 1] as usize,
    }
}

// How many bytes stand up to and with the first colon; 0 where there is none.
pub fn colon_end(name: &[u8]) -> usize
    ensures { result ≡ colon_end 0 name.now }
{
    match name.iter().position(|b| *b == b':') {
        Some(i) => i + 1,
        None => 0,
    }
}

// The part of a name that was read before.
pub fn part_in(s: &[u8], name: Span) -> Span
    ensures { result ≡ part_of s.now name }
{
    let k = colon_end(part_of(s, name.at, name.len));
    Span {
        at: name.at + k,
        len: name.len - k,
    }
}

// Number 4's test: are the bytes of two names the same?
pub fn same_name(s: &[u8], a: Span, b: Span) -> bool
    ensures { result ≡ same_list (bytes_of s.now a) (bytes_of s.now b) }
{
    same(part_of(s, a.at, a.len), part_of(s, b.at, b.len))
}

impl Scope {
    // At most so many elements are open, so many bindings, and so many that one tag declares.
    pub const DEPTH: usize = 64;

    pub const BINDINGS: usize = 64;

    pub const OWN: usize = 16;

    // So many prefixes are looked up among: those that are open, and a tag's own.
    pub const KNOWN: usize = Scope::BINDINGS + Scope::OWN;

    // Nothing open.
    pub fn fresh() -> Scope
        ensures { result ≡ fresh_scope }
    {
        Scope {
            depth: 0,
            bound: 0,
            levels: [0; 3 * Scope::DEPTH],
            bindings: [0; 4 * Scope::BINDINGS],
        }
    }

    // An element more, which declares the first owned bindings of own; or number 21 or 22.
    pub fn open(
        mut self,
        name: Span,
        own: &[u32; 4 * Scope::OWN],
        owned: usize,
    ) -> Result<Scope, ScopeError>
        ensures { result ≡ opened_of self name own.now owned }
    {
        let depth = self.depth;
        let bound = self.bound;
        if Scope::DEPTH <= depth {
            return Err(ScopeError::Depth);
        }
        let count = owned.min(Scope::OWN);
        if Scope::BINDINGS - count < bound {
            return Err(ScopeError::Bindings);
        }
        push_bindings(&mut self.bindings, bound, own, count);
        self.levels[3 * depth] = narrow(name.at);
        self.levels[3 * depth + 1] = narrow(name.len);
        self.levels[3 * depth + 2] = count as u32;
        self.depth = depth + 1;
        self.bound = bound + count;
        Ok(self)
    }

    // The innermost element closed.
    pub fn close(mut self) -> Scope
        ensures { result ≡ closed_of self }
    {
        let depth = self.depth;
        let bound = self.bound;
        if depth == 0 || Scope::DEPTH < depth {
            return self;
        }
        let k = depth - 1;
        let count = self.levels[3 * k + 2] as usize;
        self.depth = k;
        self.bound = bound.saturating_sub(count);
        self
    }
}
