// The records of an element's start along its strands.
ghost use Rattle.std.specs.Prelude.{◌≡◌, List, map, ℕ, ◌+◌, ◌*◌, ◌^◌, ◌≤◌, ◌<◌, length, get_or, leb};
ghost use Rattle.laws.specs.Over.{overwrite};
ghost use Rattle.laws.specs.Lists.{keep};
ghost use Rattle.laws.specs.Gather.{gather};
ghost use Rattle.reader.specs.Spans.{span};
ghost use Rattle.model.specs.Records.{Body, plain};
ghost use Rattle.records.specs.Rows.{laid, laid_if, laid_rows, unit_word, body_words, InWords};
ghost use Rattle.strands.specs.Packed.{strand_in, target_in};
ghost use Rattle.strands.specs.Entries.{entries_in};
ghost use Rattle.attributes.specs.Attributes.{sorted_in, all_sorted, sorted_held, sections_in, attributes_in};
ghost use Rattle.strands.specs.Writing.{row_for, row_of, keeps, sorted_bodies, begun_body, element_records, whole_bodies};

use crate::units::put_attribute_if;
use attributes::HELD;
use records::{Row, first_word, last_word, put_pair, put_row, put_row_if, put_words, unit_word};
use strands::Begun;
use strands::counts::{class_at, is_kept};
use strands::events::plain_row;
use strands::packed::{delivers, is_here, mode_of, target_of};

// Where an array of rows as words has what each strand's unit adds: behind 33 rows.
const UNITS: usize = 66;

// The rows of the attributes that are kept along a strand of this mode.
fn write_kept(
    index: &[u32; 256],
    mode: u8,
    attributes: &[u32; HELD],
    n: usize,
    unit: u32,
    out: &mut [u8],
    from: usize,
) -> usize
    requires { n ≤ 16 }
    ensures { laid out.new result ≡ laid_rows (laid out.old from) (map (row_for unit) (gather sorted_bodies (keep (keeps index.now mode) (sorted_held attributes.now n)))) }
{
    let mut used = from;
    for k in 0..n {
        let due = is_kept(index, mode, attributes, k);
        used = put_attribute_if(out, used, due, unit, attributes, k);
    }
    used
}

// An open along a strand, if its unit is new.
fn put_open(out: &mut [u8], from: usize, w: u32, schema: u32, tag: u32) -> usize
    requires { schema < 256 }
    ensures { laid out.new result ≡ laid_if (strand_in w).here (laid out.old from) (row_for (target_in w) (plain 0 schema (span tag 0))) }
{
    let open = Row {
        at: tag,
        ..plain_row(target_of(w), 0, schema as u8)
    };
    put_row_if(out, from, is_here(w), open)
}

// The element along one strand: an open if its unit is new, the start, the attributes that are kept.
fn write_element(
    index: &[u32; 256],
    attributes: &[u32; HELD],
    n: usize,
    w: u32,
    schema: u32,
    begun: Begun,
    out: &mut [u8],
    from: usize,
) -> usize
    requires { (n ≤ 16) × (schema < 256) }
    ensures { laid out.new result ≡ laid_rows (laid out.old from) (map row_of (element_records index.now begun.tag (begun_body begun) (sorted_held attributes.now n) (record { strand = strand_in w; schema = schema }))) }
{
    if !delivers(w) {
        return from;
    }
    let unit = target_of(w);
    let start = Row {
        unit,
        kind: 1,
        class: begun.class,
        at: begun.at,
        len: begun.len,
        uri_at: begun.uri_at,
        uri_len: begun.uri_len,
    };
    let a = put_open(out, from, w, schema, begun.tag);
    let b = put_row(out, a, start);
    write_kept(index, mode_of(w), attributes, n, unit, out, b)
}

// The element along all strands, each with the attributes that it keeps.
fn write_each(
    index: &[u32; 256],
    attributes: &[u32; HELD],
    n: usize,
    words: &[u32; 16],
    schemas: &[u32; 16],
    count: usize,
    begun: Begun,
    out: &mut [u8],
    from: usize,
) -> usize
    requires { (n ≤ 16) × (count ≤ 16) × ((k : ℕ) → k < count → get_or schemas.now k 0 < 256) }
    ensures { laid out.new result ≡ laid_rows (laid out.old from) (map row_of (gather (element_records index.now begun.tag (begun_body begun) (sorted_held attributes.now n)) (entries_in words.now schemas.now count))) }
{
    let mut used = from;
    for k in 0..count {
        used = write_element(index, attributes, n, words[k], schemas[k], begun, out, used);
    }
    used
}

// The k-th attribute's rows as words.
fn lay_attribute(attributes: &[u32; HELD], k: usize, rows: &mut [u64])
    requires { (k < 16) × (4 * k + 6 ≤ length rows.old) }
    ensures { (sections : List ℕ) → rows.new ≡ overwrite rows.old (4 * k + 2) (gather body_words (sorted_bodies (sorted_in (attributes_in attributes.now) sections k))) }
{
    let at = 8 * k;
    let to = 4 * k + 2;
    let len = attributes[at + 1];
    let size = attributes[at + 3];
    rows[to] = first_word(2, class_at(attributes, k), attributes[at], len);
    rows[to + 1] = last_word(len, attributes[at + 5], attributes[at + 6]);
    rows[to + 2] = first_word(3, 0, attributes[at + 2], size);
    rows[to + 3] = last_word(size, 0, 0);
}

// The rows of the start and of the n attributes as words.
fn lay_rows(begun: Begun, attributes: &[u32; HELD], n: usize, rows: &mut [u64; 82])
    requires { n ≤ 16 }
    ensures { (sections : List ℕ) → InWords rows.new (whole_bodies (begun_body begun) (all_sorted (attributes_in attributes.now) sections n)) }
{
    rows[0] = first_word(1, begun.class, begun.at, begun.len);
    rows[1] = last_word(begun.len, begun.uri_at, begun.uri_len);
    for k in 0..n {
        lay_attribute(attributes, k, rows);
    }
}

// What the unit of each strand adds to a row's first word.
fn lay_units(words: &[u32; 16], count: usize, rows: &mut [u64; 82])
    requires { count ≤ 16 }
    ensures { ((i : ℕ) → i < 66 → get_or rows.new i 0 ≡ get_or rows.old i 0)
        × ((k : ℕ) → k < count → get_or rows.new (66 + k) 0 ≡ unit_word (target_in (get_or words.now k 0))) }
{
    for k in 0..count {
        rows[UNITS + k] = unit_word(target_of(words[k]));
    }
}

// Whether so many bytes fit from a place on.
fn has_room(size: usize, from: usize, bytes: usize) -> bool
    ensures { result ≡ leb (from + bytes) size }
{
    from <= size && bytes <= size - from
}

// The rows of the attributes that are kept along a strand of this mode, copied.
fn copy_kept(
    index: &[u32; 256],
    mode: u8,
    attributes: &[u32; HELD],
    n: usize,
    rows: &[u64; 82],
    unit: u64,
    out: &mut [u8],
    from: usize,
) -> usize
    requires { (n ≤ 16) × (from + 32 * n ≤ length out.old) × ((j : ℕ) → j < 2 * n + 1 → get_or rows.now (2 * j) 0 + unit < 2 ^ 64) }
    ensures { let sorted = sorted_held attributes.now n in
        (result ≤ from + 32 * n)
        × ((begun : Body) (target : ℕ) → InWords rows.now (whole_bodies begun sorted) → unit ≡ unit_word target → laid out.new result ≡ laid_rows (laid out.old from) (map (row_for target) (gather sorted_bodies (keep (keeps index.now mode) sorted)))) }
{
    let mut used = from;
    for k in 0..n {
        if is_kept(index, mode, attributes, k) {
            put_pair(out, used, rows, 2 * k + 1, unit);
            used += 32;
        }
    }
    used
}

// The element along the k-th strand, its rows copied: the start and the attributes that are kept. Where there are no sections every attribute is, and all rows are copied at once.
fn copy_element(
    index: &[u32; 256],
    attributes: &[u32; HELD],
    n: usize,
    m: usize,
    rows: &[u64; 82],
    k: usize,
    w: u32,
    schema: u32,
    tag: u32,
    out: &mut [u8],
    from: usize,
) -> usize
    requires { (n ≤ 16) × (k < 16) × (schema < 256) × (from + 32 * (n + 1) ≤ length out.old)
        × (get_or rows.now (66 + k) 0 ≡ unit_word (target_in w))
        × ((j : ℕ) → j < 2 * n + 1 → get_or rows.now (2 * j) 0 < 2 ^ 48)
        × (m ≡ 0 → (i : ℕ) → i < n → get_or (sections_in attributes.now) i 0 ≡ 0) }
    ensures { let sorted = sorted_held attributes.now n in
        (result ≤ from + 32 * (n + 1))
        × ((begun : Body) → InWords rows.now (whole_bodies begun sorted) → laid out.new result ≡ laid_rows (laid out.old from) (map row_of (element_records index.now tag begun sorted (record { strand = strand_in w; schema = schema })))) }
{
    if !delivers(w) {
        return from;
    }
    let a = put_open(out, from, w, schema, tag);
    let unit = rows[UNITS + k];
    if m == 0 {
        let size = 2 * n + 1;
        put_words(out, a, rows, size, unit);
        return a + 16 * size;
    }
    put_words(out, a, rows, 1, unit);
    let b = a + 16;
    copy_kept(index, mode_of(w), attributes, n, rows, unit, out, b)
}

// The element along all strands, each with the attributes that it keeps: its rows are laid once and copied.
fn copy_elements(
    index: &[u32; 256],
    attributes: &[u32; HELD],
    n: usize,
    m: usize,
    words: &[u32; 16],
    schemas: &[u32; 16],
    count: usize,
    begun: Begun,
    rows: &mut [u64; 82],
    out: &mut [u8],
    from: usize,
) -> usize
    requires { (n ≤ 16) × (count ≤ 16) × ((k : ℕ) → k < count → get_or schemas.now k 0 < 256) × (from + count * (32 * (n + 1)) ≤ length out.old) × (m ≡ 0 → (k : ℕ) → k < n → get_or (sections_in attributes.now) k 0 ≡ 0) }
    ensures { laid out.new result ≡ laid_rows (laid out.old from) (map row_of (gather (element_records index.now begun.tag (begun_body begun) (sorted_held attributes.now n)) (entries_in words.now schemas.now count))) }
{
    lay_rows(begun, attributes, n, rows);
    lay_units(words, count, rows);
    let mut used = from;
    for k in 0..count {
        used = copy_element(
            index, attributes, n, m, rows, k, words[k], schemas[k], begun.tag, out, used,
        );
    }
    used
}

// The element along all strands: its rows copied where the output has room for the most that there can be, else laid one by one.
pub fn write_elements(
    index: &[u32; 256],
    attributes: &[u32; HELD],
    n: usize,
    m: usize,
    words: &[u32; 16],
    schemas: &[u32; 16],
    count: usize,
    begun: Begun,
    rows: &mut [u64; 82],
    out: &mut [u8],
    from: usize,
) -> usize
    requires { (n ≤ 16) × (count ≤ 16) × ((k : ℕ) → k < count → get_or schemas.now k 0 < 256) × (m ≡ 0 → (k : ℕ) → k < n → get_or (sections_in attributes.now) k 0 ≡ 0) }
    ensures { laid out.new result ≡ laid_rows (laid out.old from) (map row_of (gather (element_records index.now begun.tag (begun_body begun) (sorted_held attributes.now n)) (entries_in words.now schemas.now count))) }
{
    if has_room(out.len(), from, count * (32 * (n + 1))) {
        copy_elements(
            index, attributes, n, m, words, schemas, count, begun, rows, out, from,
        )
    } else {
        write_each(
            index, attributes, n, words, schemas, count, begun, out, from,
        )
    }
}
