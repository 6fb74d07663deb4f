// The rules of a mode, kind and class; and what those of a mode do with a section of attributes of a class.
ghost use Rattle.std.specs.Prelude.{◌≡◌, ◌≤◌};
ghost use Rattle.std.specs.Iterator.{YieldsFirst, item_count};
ghost use Rattle.strands.specs.Rules.{rules_in, rules_left, keeps_class, opened, units_for};
ghost use Rattle.model.specs.Groups.{is_attach};

use index::choose;
use table::words::{key_of, rule_of};
use table::{Action, Rule};

// Rules of an index, one after the other: those of its words that have this key.
#[derive(Drop)]
pub struct Rules<'a> {
    words: &'a [u32],
    key: u32,
}

impl<'a> Iterator for Rules<'a> {
    type Item = Rule;

    ghost next_gives = { YieldsFirst rules_left };

    ghost remaining = { item_count rules_left };

    fn next(&mut self) -> Option<Rule> {
        while let Some((word, others)) = self.words.split_first() {
            self.words = others;
            if key_of(*word) == self.key {
                return Some(rule_of(*word));
            }
        }
        None
    }
}

// The rules of a mode, kind and class.
pub fn rules_in<'a>(index: &'a [u32; 256], mode: u8, kind: u8, class: u8) -> Rules<'a>
    ensures { rules_left result ≡ rules_in index.now mode kind class }
{
    let c = choose(index, mode, kind, class);
    Rules {
        words: &index[c.first..c.end],
        key: c.key,
    }
}

fn is_attach(a: Action) -> bool
    ensures { result ≡ is_attach a }
{
    matches!(a, Action::Attach)
}

fn opened(a: Action) -> usize
    ensures { (result ≡ opened a) × (result ≤ 1) }
{
    usize::from(matches!(a, Action::Validate))
}

// Does one keep them with the element? Where there is none, they are kept.
pub fn keeps_class(index: &[u32; 256], mode: u8, class: u8) -> bool
    ensures { result ≡ keeps_class index.now mode class }
{
    let mut none = true;
    for rule in rules_in(index, mode, 1, class) {
        if is_attach(rule.action) {
            return true;
        }
        none = false;
    }
    none
}

// How many units they open.
pub fn units_for(index: &[u32; 256], mode: u8, class: u8) -> usize
    ensures { (result ≡ units_for index.now mode class) × (result ≤ 128) }
{
    let mut n = 0;
    for rule in rules_in(index, mode, 1, class) {
        n += opened(rule.action);
    }
    n
}
