// The units and records of a start, counted before one is written.
ghost use Rattle.std.specs.Prelude.{◌≡◌, List, map, ℕ, ◌+◌, ◌-◌, ◌≤◌, ◌<◌, length, get_or, take, MatchOption};
ghost use Rattle.laws.specs.Lists.{all, tabulate};
ghost use Rattle.laws.specs.Gather.{total};
ghost use Rattle.laws.specs.Over.{overwrite};
ghost use Rattle.laws.specs.Members.{All};
ghost use Rattle.model.specs.Stream.{Entry, allot};
ghost use Rattle.strands.specs.Packed.{strand_in};
ghost use Rattle.strands.specs.Entries.{strand_word, here_count, Unnumbered, entries_in};
ghost use Rattle.strands.specs.Rules.{units_for};
ghost use Rattle.attributes.specs.Attributes.{sorted_held, sections_in};
ghost use Rattle.strands.specs.Writing.{members, head_class, section_count, element_count};
ghost use Rattle.openings.specs.declared.Decided.{Decided};

use crate::{Decided, STRANDS, UNITS};
use attributes::HELD;
use entries::{new_units, number_units};
use strands::counts::{elements_count, load_all};

// The units and records of a start with these strands and sorted attributes, or none where a unit is past 65,535; the units that open here get their numbers.
pub fn weigh(
    index: &[u32; 256],
    attributes: &[u32; HELD],
    n: usize,
    m: usize,
    count: usize,
    units: usize,
    words: &mut [u32; STRANDS],
) -> Option<Decided>
    requires { (n ≤ 16) × (m ≤ 16) × (count ≤ 16) × (units ≤ 65536) × (m ≡ 0 → (k : ℕ) → k < n → get_or (sections_in attributes.now) k 0 ≡ 0) }
    ensures { let l = sorted_held attributes.now n in
        let js = tabulate (λ (j : ℕ). j) 1 m in
        let ws = tabulate (λ (k : ℕ). get_or words.old k 0) 0 count in
        let first = units + total (λ (w : ℕ). total (λ (j : ℕ). units_for index.now (strand_in w).mode (head_class (members l j))) js) ws in
        let all = first + here_count (take count words.old) in
        MatchOption result (65536 < all) (λ (d : Decided). (all ≤ 65536)
        × ((d.strands ≡ count) × (d.attributes ≡ n) × (d.sections ≡ m) × (d.units ≡ all))
        × ((schemas : List ℕ) → d.records ≡ total (λ (w : ℕ). total (section_count index.now (strand_in w).mode l) js) ws + total (element_count index.now l) (entries_in words.new schemas count))
        × ((es : List Entry) → length es ≡ count → take count words.old ≡ map strand_word es → All Unnumbered es → words.new ≡ overwrite words.old 0 (map strand_word (allot first es)))) }
{
    let load = load_all(index, attributes, n, m, words, count);
    let first = units + load.units;
    let here = new_units(words, count);
    let all = first + here;
    if UNITS < all {
        return None;
    }
    if here != 0 {
        number_units(words, count, first);
    }
    let records = load.records + elements_count(index, words, count, attributes, n, m);
    Some(Decided {
        strands: count,
        attributes: n,
        sections: m,
        units: all,
        records,
    })
}
