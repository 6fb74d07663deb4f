// The attribute units of a start, each from open to close.
ghost use Rattle.std.specs.Prelude.{◌≡◌, List, [], map, cond, ℕ, ◌+◌, ◌≤◌, ◌<◌, length, get_or};
ghost use Rattle.laws.specs.Lists.{tabulate};
ghost use Rattle.laws.specs.Gather.{gather};
ghost use Rattle.model.specs.Theory.{Validate};
ghost use Rattle.model.specs.Stream.{attributes_from};
ghost use Rattle.records.specs.Rows.{laid, laid_rows};
ghost use Rattle.strands.specs.Packed.{strand_in};
ghost use Rattle.attributes.specs.Attributes.{sorted_in, sorted_held, attributes_in};
ghost use Rattle.strands.specs.Writing.{row_for, row_of, members, sorted_bodies, unit_for, section_units, strand_units};

use attributes::HELD;
use attributes::sections::section_at;
use records::{Row, put_row, put_row_if};
use strands::Wrote;
use strands::counts::{class_at, section_class};
use strands::events::plain_row;
use strands::packed::mode_of;
use strands::rules::rules_in;
use table::{Action, Rule};

// The two rows of the k-th attribute, if they are due.
pub fn put_attribute_if(
    out: &mut [u8],
    used: usize,
    due: bool,
    unit: u32,
    attributes: &[u32; HELD],
    k: usize,
) -> usize
    requires { k < 16 }
    ensures { (sections : List ℕ) → laid out.new result ≡ laid_rows (laid out.old used) (map (row_for unit) (cond due (sorted_bodies (sorted_in (attributes_in attributes.now) sections k)) [])) }
{
    let at = 8 * k;
    let name = Row {
        unit,
        kind: 2,
        class: class_at(attributes, k),
        at: attributes[at],
        len: attributes[at + 1],
        uri_at: attributes[at + 5],
        uri_len: attributes[at + 6],
    };
    let value = Row {
        at: attributes[at + 2],
        len: attributes[at + 3],
        ..plain_row(unit, 3, 0)
    };
    let next = put_row_if(out, used, due, name);
    put_row_if(out, next, due, value)
}

// The rows of the attributes of the j-th section.
fn write_members(
    attributes: &[u32; HELD],
    n: usize,
    j: usize,
    unit: u32,
    out: &mut [u8],
    from: usize,
) -> usize
    requires { (n ≤ 16) × (j ≤ 16) }
    ensures { laid out.new result ≡ laid_rows (laid out.old from) (map (row_for unit) (gather sorted_bodies (members (sorted_held attributes.now n) j))) }
{
    let section = j as u32;
    let mut used = from;
    for k in 0..n {
        used = put_attribute_if(
            out,
            used,
            section_at(attributes, k) == section,
            unit,
            attributes,
            k,
        );
    }
    used
}

// A unit of the j-th section: open, a virtual element with its attributes, close.
fn write_unit(
    attributes: &[u32; HELD],
    n: usize,
    j: usize,
    unit: u32,
    schema: u8,
    tag: u32,
    out: &mut [u8],
    from: usize,
) -> usize
    requires { (n ≤ 16) × (j ≤ 16) }
    ensures { laid out.new result ≡ laid_rows (laid out.old from) (map row_of (attributes_from (λ (u : ℕ). u) unit (unit_for tag (members (sorted_held attributes.now n) j) Validate schema))) }
{
    let open = Row {
        at: tag,
        len: 1,
        ..plain_row(unit, 0, schema)
    };
    let a = put_row(out, from, open);
    let b = put_row(out, a, plain_row(unit, 1, 253));
    let c = write_members(attributes, n, j, unit, out, b);
    let d = put_row(out, c, plain_row(unit, 5, 253));
    put_row(out, d, plain_row(unit, 6, 0))
}

// What a rule makes of the j-th section: a unit if it validates, else nothing.
fn write_by(
    attributes: &[u32; HELD],
    n: usize,
    j: usize,
    rule: Rule,
    tag: u32,
    wrote: Wrote,
    out: &mut [u8],
) -> Wrote
    requires { (n ≤ 16) × (j ≤ 16) × (wrote.unit + length (unit_for tag (members (sorted_held attributes.now n) j) rule.action rule.schema) ≤ 65536) }
    ensures { let us = unit_for tag (members (sorted_held attributes.now n) j) rule.action rule.schema in
        (result.unit ≡ wrote.unit + length us)
        × (laid out.new result.used ≡ laid_rows (laid out.old wrote.used) (map row_of (attributes_from (λ (u : ℕ). u) wrote.unit us))) }
{
    match rule.action {
        Action::Attach | Action::Unwrap => wrote,
        Action::Validate => {
            let unit = wrote.unit;
            let used = write_unit(
                attributes,
                n,
                j,
                unit as u32,
                rule.schema,
                tag,
                out,
                wrote.used,
            );
            Wrote {
                unit: unit + 1,
                used,
            }
        }
    }
}

// The units of the j-th section along a strand of this mode.
fn write_section(
    index: &[u32; 256],
    attributes: &[u32; HELD],
    n: usize,
    j: usize,
    mode: u8,
    tag: u32,
    from: Wrote,
    out: &mut [u8],
) -> Wrote
    requires { (n ≤ 16) × (j ≤ 16) × (from.unit + length (section_units index.now mode tag (sorted_held attributes.now n) j) ≤ 65536) }
    ensures { let us = section_units index.now mode tag (sorted_held attributes.now n) j in
        (result.unit ≡ from.unit + length us)
        × (laid out.new result.used ≡ laid_rows (laid out.old from.used) (map row_of (attributes_from (λ (u : ℕ). u) from.unit us))) }
{
    let mut wrote = from;
    for rule in rules_in(index, mode, 1, section_class(attributes, n, j)) {
        wrote = write_by(attributes, n, j, rule, tag, wrote, out);
    }
    wrote
}

// The units of the first m sections along a strand of this mode.
fn write_sections(
    index: &[u32; 256],
    attributes: &[u32; HELD],
    n: usize,
    m: usize,
    mode: u8,
    tag: u32,
    from: Wrote,
    out: &mut [u8],
) -> Wrote
    requires { (n ≤ 16) × (m ≤ 16) × (from.unit + length (strand_units index.now tag (sorted_held attributes.now n) m mode) ≤ 65536) }
    ensures { let us = strand_units index.now tag (sorted_held attributes.now n) m mode in
        (result.unit ≡ from.unit + length us)
        × (laid out.new result.used ≡ laid_rows (laid out.old from.used) (map row_of (attributes_from (λ (u : ℕ). u) from.unit us))) }
{
    let mut wrote = from;
    for j in 1..=m {
        wrote = write_section(index, attributes, n, j, mode, tag, wrote, out);
    }
    wrote
}

// The attribute units of all strands, from the output's first byte on.
pub fn write_units(
    index: &[u32; 256],
    attributes: &[u32; HELD],
    n: usize,
    m: usize,
    words: &[u32; 16],
    count: usize,
    tag: u32,
    unit: usize,
    out: &mut [u8],
) -> Wrote
    requires { (n ≤ 16) × (m ≤ 16) × (count ≤ 16) × (unit + length (gather (λ (w : ℕ). strand_units index.now tag (sorted_held attributes.now n) m (strand_in w).mode) (tabulate (λ (k : ℕ). get_or words.now k 0) 0 count)) ≤ 65536) }
    ensures { let us = gather (λ (w : ℕ). strand_units index.now tag (sorted_held attributes.now n) m (strand_in w).mode) (tabulate (λ (k : ℕ). get_or words.now k 0) 0 count) in
        (result.unit ≡ unit + length us)
        × (laid out.new result.used ≡ laid_rows (laid out.old 0) (map row_of (attributes_from (λ (u : ℕ). u) unit us))) }
{
    let mut wrote = Wrote { unit, used: 0 };
    for w in &words[..count] {
        wrote = write_sections(index, attributes, n, m, mode_of(*w), tag, wrote, out);
    }
    wrote
}
