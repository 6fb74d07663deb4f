// How many records and units a start makes, counted before one is written.
ghost use Rattle.std.specs.Prelude.{◌≡◌, List, cond, ℕ, ◌+◌, ◌*◌, ◌≤◌, ◌<◌, length, get_or};
ghost use Rattle.laws.specs.Lists.{tabulate, keep};
ghost use Rattle.laws.specs.Gather.{total};
ghost use Rattle.strands.specs.Packed.{strand_in, receives, is_unit};
ghost use Rattle.strands.specs.Rules.{units_for};
ghost use Rattle.strands.specs.Entries.{entries_in};
ghost use Rattle.attributes.specs.Attributes.{sorted_in, sorted_held, sections_in, attributes_in};
ghost use Rattle.strands.specs.Writing.{members, head_class, keeps, section_count, element_count};

use crate::Load;
use crate::packed::{delivers, is_here, mode_of};
use crate::rules::{keeps_class, units_for};
use attributes::HELD;
use attributes::sections::section_at;

// The class of the k-th attribute's namespace.
pub fn class_at(attributes: &[u32; HELD], k: usize) -> u8
    requires { k < 16 }
    ensures { (sections : List ℕ) → result ≡ (sorted_in (attributes_in attributes.now) sections k).class }
{
    (attributes[8 * k + 4] % 256) as u8
}

// How many of the n attributes are of the j-th section.
pub fn members_of(attributes: &[u32; HELD], n: usize, j: usize) -> usize
    requires { (n ≤ 16) × (j ≤ 16) }
    ensures { (result ≡ length (members (sorted_held attributes.now n) j)) × (result ≤ 16) }
{
    let section = j as u32;
    let mut m = 0;
    for k in 0..n {
        if section_at(attributes, k) == section {
            m += 1;
        }
    }
    m
}

// The class of the j-th section: that of its first attribute; 0 where it has none, as `head_class` has it.
pub fn section_class(attributes: &[u32; HELD], n: usize, j: usize) -> u8
    requires { (n ≤ 16) × (j ≤ 16) }
    ensures { result ≡ head_class (members (sorted_held attributes.now n) j) }
{
    let section = j as u32;
    for k in 0..n {
        if section_at(attributes, k) == section {
            return class_at(attributes, k);
        }
    }
    0
}

// The attribute units of a strand in this mode, of the first m sections.
pub fn load_of(index: &[u32; 256], attributes: &[u32; HELD], n: usize, m: usize, mode: u8) -> Load
    requires { (n ≤ 16) × (m ≤ 16) }
    ensures { let l = sorted_held attributes.now n in
        let js = tabulate (λ (j : ℕ). j) 1 m in
        (result.units ≡ total (λ (j : ℕ). units_for index.now mode (head_class (members l j))) js)
        × (result.records ≡ total (section_count index.now mode l) js)
        × (result.units ≤ 2048)
        × (result.records ≤ 73728) }
{
    let mut units = 0;
    let mut records = 0;
    for j in 1..=m {
        let class = section_class(attributes, n, j);
        let v = units_for(index, mode, class);
        units += v;
        records += v * (4 + 2 * members_of(attributes, n, j));
    }
    Load { units, records }
}

// The attribute units of all strands.
pub fn load_all(
    index: &[u32; 256],
    attributes: &[u32; HELD],
    n: usize,
    m: usize,
    words: &[u32; 16],
    count: usize,
) -> Load
    requires { (n ≤ 16) × (m ≤ 16) × (count ≤ 16) }
    ensures { let l = sorted_held attributes.now n in
        let js = tabulate (λ (j : ℕ). j) 1 m in
        let ws = tabulate (λ (k : ℕ). get_or words.now k 0) 0 count in
        (result.units ≡ total (λ (w : ℕ). total (λ (j : ℕ). units_for index.now (strand_in w).mode (head_class (members l j))) js) ws)
        × (result.records ≡ total (λ (w : ℕ). total (section_count index.now (strand_in w).mode l) js) ws)
        × (result.units ≤ 32768)
        × (result.records ≤ 1179648) }
{
    let mut load = Load {
        units: 0,
        records: 0,
    };
    if m != 0 {
        for w in &words[..count] {
            load += load_of(index, attributes, n, m, mode_of(*w));
        }
    }
    load
}

// Is the k-th attribute kept with the element along a strand of this mode?
pub fn is_kept(index: &[u32; 256], mode: u8, attributes: &[u32; HELD], k: usize) -> bool
    requires { k < 16 }
    ensures { result ≡ keeps index.now mode (sorted_in (attributes_in attributes.now) (sections_in attributes.now) k) }
{
    section_at(attributes, k) == 0 || keeps_class(index, mode, class_at(attributes, k))
}

// How many of the n attributes are kept.
pub fn kept_count(index: &[u32; 256], mode: u8, attributes: &[u32; HELD], n: usize) -> usize
    requires { n ≤ 16 }
    ensures { (result ≡ length (keep (keeps index.now mode) (sorted_held attributes.now n))) × (result ≤ 16) }
{
    let mut m = 0;
    for k in 0..n {
        if is_kept(index, mode, attributes, k) {
            m += 1;
        }
    }
    m
}

// How many records the element makes along a strand that keeps so many attributes.
fn count_with(w: u32, kept: usize) -> usize
    requires { kept ≤ 16 }
    ensures { (result ≡ cond (is_unit (receives (strand_in w))) (cond (strand_in w).here 1 0 + (1 + 2 * kept)) 0) × (result ≤ 34) }
{
    if !delivers(w) {
        return 0;
    }
    usize::from(is_here(w)) + (1 + 2 * kept)
}

// How many records the element makes along a strand. Where there are no sections every attribute is kept.
fn element_count(index: &[u32; 256], w: u32, attributes: &[u32; HELD], n: usize, m: usize) -> usize
    requires { (n ≤ 16) × (m ≡ 0 → (k : ℕ) → k < n → get_or (sections_in attributes.now) k 0 ≡ 0) }
    ensures { ((schema : ℕ) → result ≡ element_count index.now (sorted_held attributes.now n) (record { strand = strand_in w; schema = schema })) × (result ≤ 34) }
{
    if m == 0 {
        count_with(w, n)
    } else {
        count_with(w, kept_count(index, mode_of(w), attributes, n))
    }
}

// How many records the element makes along all strands.
pub fn elements_count(
    index: &[u32; 256],
    words: &[u32; 16],
    count: usize,
    attributes: &[u32; HELD],
    n: usize,
    m: usize,
) -> usize
    requires { (n ≤ 16) × (count ≤ 16) × (m ≡ 0 → (k : ℕ) → k < n → get_or (sections_in attributes.now) k 0 ≡ 0) }
    ensures { ((schemas : List ℕ) → result ≡ total (element_count index.now (sorted_held attributes.now n)) (entries_in words.now schemas count)) × (result ≤ 544) }
{
    let mut r = 0;
    for w in &words[..count] {
        r += element_count(index, *w, attributes, n, m);
    }
    r
}
