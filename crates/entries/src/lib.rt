// The strands of an element that starts: those of its parent, or what their rules make at a new section.
#![tactic(auto)]

ghost use Rattle.std.specs.Prelude.{◌≡◌, List, [], ◌∷◌, map, ◌+◌, ◌≤◌, ◌<◌, length, take};
ghost use Rattle.laws.specs.Members.{All};
ghost use Rattle.table.specs.Table.{standard, fallback};
ghost use Rattle.laws.specs.Over.{overwrite};
ghost use Rattle.model.specs.Stream.{Entry, allot};
ghost use Rattle.strands.specs.Packed.{strand_in, words_at};
ghost use Rattle.strands.specs.Levels.{level_strands};
ghost use Rattle.strands.specs.Entries.{made_by, entries_by, entries_from, stay_entry, counted, strand_word, schema_word, here_count, Unnumbered};

use strands::LEVELS;
use strands::levels::strand_at;
use strands::packed::{aimed, is_here, made_by, mode_of, stay_of};
use strands::rules::rules_in;
use table::{Action, Rule};

// The schema of reject.
const REJECT: u8 = 255;

// What is taken where no rule fits: validate against reject, in the same mode.
fn fallback_of(mode: u8) -> Rule
    ensures { result ≡ fallback standard.element 0 mode }
{
    Rule {
        mode,
        kind: 0,
        class: 255,
        action: Action::Validate,
        schema: REJECT,
        next: mode,
    }
}

// The strand that a rule makes of one, put behind n others; how many there are then, none for more than 16.
fn take_rule(
    w: u32,
    rule: Rule,
    words: &mut [u32; 16],
    schemas: &mut [u32; 16],
    n: usize,
) -> Option<usize>
    requires { (n ≤ 16) × (rule.next < 32) }
    ensures { let es = made_by (strand_in w) rule ∷ [] in
        (result ≡ counted (n + length es))
        × (n + length es ≤ 16 → words.new ≡ overwrite words.old n (map strand_word es))
        × (n + length es ≤ 16 → schemas.new ≡ overwrite schemas.old n (map schema_word es)) }
{
    if 16 <= n {
        return None;
    }
    words[n] = made_by(w, rule);
    schemas[n] = u32::from(rule.schema);
    Some(n + 1)
}

// The strands that one makes at a new section of this class, put behind n others; how many there are then, none for more than 16.
pub fn take_rules(
    index: &[u32; 256],
    w: u32,
    class: u8,
    words: &mut [u32; 16],
    schemas: &mut [u32; 16],
    n: usize,
) -> Option<usize>
    requires { n ≤ 16 }
    ensures { let es = entries_by index.now class (strand_in w) in
        (result ≡ counted (n + length es))
        × (n + length es ≤ 16 → words.new ≡ overwrite words.old n (map strand_word es))
        × (n + length es ≤ 16 → schemas.new ≡ overwrite schemas.old n (map schema_word es)) }
{
    let mode = mode_of(w);
    let mut k = n;
    for rule in rules_in(index, mode, 0, class) {
        k = take_rule(w, rule, words, schemas, k)?;
    }
    if k == n {
        return take_rule(w, fallback_of(mode), words, schemas, k);
    }
    Some(k)
}

// The strands of a new section below a level of n strands; how many, none for more than 16.
pub fn take_all(
    index: &[u32; 256],
    levels: &[u32; LEVELS],
    level: usize,
    n: usize,
    class: u8,
    words: &mut [u32; 16],
    schemas: &mut [u32; 16],
) -> Option<usize>
    requires { (level < 64) × (n ≤ 16) }
    ensures { let es = entries_from index.now class (words_at (level_strands levels.now) level n) in
        (result ≡ counted (length es))
        × (length es ≤ 16 → words.new ≡ overwrite words.old 0 (map strand_word es))
        × (length es ≤ 16 → schemas.new ≡ overwrite schemas.old 0 (map schema_word es)) }
{
    let mut k = 0;
    for j in 0..n {
        let w = strand_at(levels, level, j);
        k = take_rules(index, w, class, words, schemas, k)?;
    }
    Some(k)
}

// Inside a section the n strands of the level stay.
pub fn stay_all(
    levels: &[u32; LEVELS],
    level: usize,
    n: usize,
    words: &mut [u32; 16],
    schemas: &mut [u32; 16],
)
    requires { (level < 64) × (n ≤ 16) }
    ensures { let es = map stay_entry (words_at (level_strands levels.now) level n) in
        (words.new ≡ overwrite words.old 0 (map strand_word es))
        × (schemas.new ≡ overwrite schemas.old 0 (map schema_word es)) }
{
    for j in 0..n {
        words[j] = stay_of(strand_at(levels, level, j));
        schemas[j] = 0;
    }
}

// How many of the first n strands open a unit here.
pub fn new_units(words: &[u32; 16], n: usize) -> usize
    requires { n ≤ 16 }
    ensures { (result ≡ here_count (take n words.now)) × (result ≤ 16) }
{
    words[..n].iter().filter(|w| is_here(**w)).count()
}

// The units that open here get the numbers from `unit` on, in strand order.
pub fn number_units(words: &mut [u32; 16], n: usize, unit: usize)
    requires { (n ≤ 16) × (unit + here_count (take n words.old) ≤ 65536) }
    ensures { (es : List Entry) → length es ≡ n → take n words.old ≡ map strand_word es → All Unnumbered es → words.new ≡ overwrite words.old 0 (map strand_word (allot unit es)) }
{
    let mut u = unit;
    for w in &mut words[..n] {
        if is_here(*w) {
            *w = aimed(*w, u);
            u += 1;
        }
    }
}
