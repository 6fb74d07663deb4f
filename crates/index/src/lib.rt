// The rules of a table unpacked once, so that those of a mode, kind and class are found without a search over all.
// Places 0 to 127 are the rules' words, 128 + b the first rule of the mode and kind b, 192 + b the place behind its last, 0 where there is none.
#![tactic(auto)]

ghost use Rattle.std.specs.Prelude.{◌≡◌, ◌<◌};
ghost use Rattle.table.specs.Index.{bucket_of, index_of, next_rule, word_in, chosen_of};

use table::words::{key_of, word_at};
use table::{Chosen, Header};

// Mode and kind of a rule.
fn bucket_of(w: u32) -> usize
    ensures { (result ≡ bucket_of w) × (result < 64) }
{
    (w >> 26) as usize
}

// The index of a table with this header.
pub fn load(table: &[u8], header: Header) -> [u32; 256]
    ensures { result ≡ index_of table.now header }
{
    let mut index: [u32; 256] = [0; 256];
    for i in 0..header.rules.min(128) {
        let w = word_at(table, i);
        let b = bucket_of(w);
        let first = if index[192 + b] == 0 {
            u32::from(i)
        } else {
            index[128 + b]
        };
        index[usize::from(i)] = w;
        index[128 + b] = first;
        index[192 + b] = u32::from(i) + 1;
    }
    index
}

// The i-th rule's 32 bits; 0 past the rules, as the definitions read them.
pub fn word_in(index: &[u32; 256], i: usize) -> u32
    ensures { result ≡ word_in index.now i }
{
    if i < 128 { index[i] } else { 0 }
}

// The first rule from `from` on and before `end` that has this key; `end`, at most 128, where there is none, so that the rules from it to the end are none.
pub fn next_rule(index: &[u32; 256], from: usize, end: usize, key: u32) -> usize
    ensures { result ≡ next_rule index.now from end key }
{
    let last = end.min(128);
    for i in from..last {
        if key_of(index[i]) == key {
            return i;
        }
    }
    last
}

// The rules that name the class if there is one, else those that name any. The kind is the bit of a rule: 0 for elements, 1 for attributes.
pub fn choose(index: &[u32; 256], mode: u8, kind: u8, class: u8) -> Chosen
    ensures { result ≡ chosen_of index.now mode kind class }
{
    let b = mode % 32 * 2 + kind % 2;
    let at = usize::from(b);
    let from = index[128 + at] as usize;
    let end = (index[192 + at] as usize).min(128);
    let key = u32::from(b) * 256;
    let naming = key + u32::from(class);
    let first = next_rule(index, from, end, naming);
    if first < end {
        return Chosen {
            key: naming,
            first,
            end,
        };
    }
    let any = key + 255;
    Chosen {
        key: any,
        first: next_rule(index, from, end, any),
        end,
    }
}
