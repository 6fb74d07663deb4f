// The numbers of a level, laid down behind the last refusal.
ghost use Rattle.std.specs.Prelude.{◌≡◌, [], ◌∷◌, ◌+◌, ◌*◌, ◌≤◌, ◌<◌, length, take};
ghost use Rattle.laws.specs.Over.{overwrite};
ghost use Rattle.reader.specs.Stored.{narrowed};
ghost use Rattle.reader.specs.Scope.{level_numbers};
ghost use Rattle.reader.specs.Spans.{whole_span};
ghost use Rattle.strands.specs.Levels.{level_names, level_spaces, level_strands, level_free};

use crate::STRANDS;
use crate::arrays::copy;
use attributes::Placing;
use attributes::held::narrow;
use lexer::Tag;
use reader::scopes::push_bindings;
use reader::{Scope, Span};
use strands::LEVELS;

// Its name, and how many bindings it has.
fn push_name(levels: &mut [u32; LEVELS], depth: usize, name: Span, owned: usize)
    requires { (depth < 64) × (owned ≤ 16) }
    ensures { (levels.new ≡ overwrite levels.old (24 * depth) (level_numbers name owned)) × (length levels.old ≡ 1536) }
{
    let at = 24 * depth;
    levels[at] = narrow(name.at);
    levels[at + 1] = narrow(name.len);
    levels[at + 2] = narrow(owned);
}

// Its namespace, and how many strands it has.
fn push_space(levels: &mut [u32; LEVELS], depth: usize, placing: Placing, count: usize)
    requires { (depth < 64) × (count ≤ 16) }
    ensures { levels.new ≡ overwrite levels.old (24 * depth + 3) (placing.class ∷ narrowed placing.at ∷ narrowed placing.len ∷ count ∷ []) }
{
    let at = 24 * depth + 3;
    levels[at] = u32::from(placing.class);
    levels[at + 1] = narrow(placing.at);
    levels[at + 2] = narrow(placing.len);
    levels[at + 3] = narrow(count);
}

// Its strands.
fn push_strands(levels: &mut [u32; LEVELS], depth: usize, words: &[u32; STRANDS], count: usize)
    requires { (depth < 64) × (count ≤ 16) }
    ensures { levels.new ≡ overwrite levels.old (24 * depth + 8) (take count words.now) }
{
    copy(levels, 24 * depth + 8, words, 0, count);
}

// What a start that is accepted lays down.
pub fn push_start(
    tag: Tag,
    placing: Placing,
    own: &[u32; 64],
    owned: usize,
    words: &[u32; STRANDS],
    count: usize,
    depth: usize,
    bound: usize,
    levels: &mut [u32; LEVELS],
    bindings: &mut [u32; 4 * Scope::BINDINGS],
)
    requires { (depth < 64) × (count ≤ 16) × (owned ≤ 16) × (bound + owned ≤ 64) }
    ensures { (level_names levels.new ≡ overwrite (level_names levels.old) (3 * depth) (level_numbers (whole_span tag.name) owned))
        × (bindings.new ≡ overwrite bindings.old (4 * bound) (take (4 * owned) own.now))
        × (level_spaces levels.new ≡ overwrite (level_spaces levels.old) (4 * depth) (placing.class ∷ narrowed placing.at ∷ narrowed placing.len ∷ count ∷ []))
        × (level_strands levels.new ≡ overwrite (level_strands levels.old) (16 * depth) (take count words.now))
        × (level_free levels.new ≡ level_free levels.old) }
{
    let name = tag.name;
    let whole = Span {
        at: name.at,
        len: name.end.saturating_sub(name.at),
    };
    push_name(levels, depth, whole, owned);
    push_bindings(bindings, bound, own, owned);
    push_space(levels, depth, placing, count);
    push_strands(levels, depth, words, count);
}
