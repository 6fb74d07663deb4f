// The records of a start.
ghost use Rattle.std.specs.Prelude.{◌≡◌, ℕ, ◌+◌, ◌++◌, map};
ghost use Rattle.laws.specs.Gather.{gather};
ghost use Rattle.model.specs.Stream.{attributes_from};
ghost use Rattle.records.specs.Rows.{laid, laid_rows};
ghost use Rattle.strands.specs.Entries.{entries_in};
ghost use Rattle.attributes.specs.Attributes.{sorted_held, sections_in, attributes_in};
ghost use Rattle.strands.specs.Writing.{row_of, begun_body, element_records};
ghost use Rattle.openings.specs.Openings.{begun_of, Openable, array_units};

use crate::{Decided, STRANDS};
use attributes::held::narrow;
use attributes::{HELD, Placing};
use lexer::Tag;
use start_records::elements::write_elements;
use start_records::units::write_units;
use strands::Begun;

// What the starts along the strands have in common.
pub fn begun_of(at: usize, tag: Tag, placing: Placing) -> Begun
    ensures { result ≡ begun_of at tag placing }
{
    let name = tag.name;
    Begun {
        tag: narrow(at),
        class: placing.class,
        at: narrow(name.part),
        len: narrow(name.end.saturating_sub(name.part)),
        uri_at: narrow(placing.at),
        uri_len: narrow(placing.len),
    }
}

// The records of a start: the attribute units, then the element along each strand.
pub fn write_start(
    index: &[u32; 256],
    attributes: &[u32; HELD],
    words: &[u32; STRANDS],
    schemas: &[u32; STRANDS],
    decided: Decided,
    units: usize,
    begun: Begun,
    rows: &mut [u64; 82],
    out: &mut [u8],
) -> usize
    requires { Openable index.now (attributes_in attributes.now) (sections_in attributes.now) words.now schemas.now begun.tag units decided }
    ensures { let l = sorted_held attributes.now decided.attributes in
        laid out.new result ≡ laid_rows (laid out.old 0)
        (map row_of
        (attributes_from (λ (u : ℕ). u) units (array_units index.now (attributes_in attributes.now) (sections_in attributes.now) words.now begun.tag decided)
        ++ gather (element_records index.now begun.tag (begun_body begun) l) (entries_in words.now schemas.now decided.strands))) }
{
    let n = decided.attributes;
    let count = decided.strands;
    let wrote = write_units(
        index,
        attributes,
        n,
        decided.sections,
        words,
        count,
        begun.tag,
        units,
        out,
    );
    write_elements(
        index,
        attributes,
        n,
        decided.sections,
        words,
        schemas,
        count,
        begun,
        rows,
        out,
        wrote.used,
    )
}
