// A text and an end: what each strand of the innermost level writes.
ghost use Rattle.std.specs.Prelude.{◌≡◌, map, ◌≤◌, ◌<◌};
ghost use Rattle.laws.specs.Gather.{gather, total};
ghost use Rattle.reader.specs.Spans.{span};
ghost use Rattle.model.specs.Records.{plain};
ghost use Rattle.records.specs.Rows.{laid, laid_rows, body_of};
ghost use Rattle.strands.specs.Packed.{words_at};
ghost use Rattle.strands.specs.Levels.{level_strands};
ghost use Rattle.strands.specs.Writing.{row_for, row_of, event_count, event_records};

use crate::LEVELS;
use crate::levels::strand_at;
use crate::packed::{delivers, is_here, target_of};
use records::{Row, put_row_if};

// How many records a strand writes.
fn records_of(w: u32, closes: bool) -> usize
    ensures { (result ≡ event_count closes w) × (result ≤ 2) }
{
    // Two bits for each action, whether its unit opened here and whether it has a target. The second number is for an event that closes.
    let counts: u32 = if closes { 0xA2510000 } else { 0x51510000 };
    (counts >> (w / 32 % 16 * 2) & 3) as usize
}

// How many records n strands of a level write.
pub fn event_count(levels: &[u32; LEVELS], level: usize, n: usize, closes: bool) -> usize
    requires { (level < 64) × (n ≤ 16) }
    ensures { (result ≡ total (event_count closes) (words_at (level_strands levels.now) level n)) × (result ≤ 32) }
{
    let mut k = 0;
    let mut j = 0;
    // The second test never ends it early: 32 records are those of 16 strands. It is there for speed: with it the compiler makes no vectors of the loop.
    while (j < n) & (k < 32) {
        k += records_of(strand_at(levels, level, j), closes);
        j += 1;
    }
    k
}

// A row with another unit.
fn with_unit(row: Row, unit: u32) -> Row
    ensures { result ≡ row_for unit (body_of row) }
{
    Row { unit, ..row }
}

// A row of this unit with kind and class alone.
pub fn plain_row(unit: u32, kind: u8, class: u8) -> Row
    ensures { result ≡ row_for unit (plain kind class (span 0 0)) }
{
    Row {
        unit,
        kind,
        class,
        at: 0,
        len: 0,
        uri_at: 0,
        uri_len: 0,
    }
}

// The row, for each of n strands of a level that delivers, and a close if its unit opened at this element and the event closes.
pub fn write_event(
    levels: &[u32; LEVELS],
    level: usize,
    n: usize,
    row: Row,
    closes: bool,
    out: &mut [u8],
) -> usize
    requires { (level < 64) × (n ≤ 16) }
    ensures { laid out.new result ≡ laid_rows (laid out.old 0) (map row_of (gather (event_records (body_of row) closes) (words_at (level_strands levels.now) level n))) }
{
    let mut used = 0;
    for j in 0..n {
        let w = strand_at(levels, level, j);
        let due = delivers(w);
        let unit = target_of(w);
        let next = put_row_if(out, used, due, with_unit(row, unit));
        used = put_row_if(out, next, due & closes & is_here(w), plain_row(unit, 6, 0));
    }
    used
}
