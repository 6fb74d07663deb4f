// A text and an end that come next: written, or counted, and the session's numbers behind them.
ghost use Rattle.std.specs.Prelude.{◌≡◌, List, [], ℕ, ◌*◌, ◌-◌, ◌/◌, ◌≤◌, ◌<◌, get_or, eqb, ltb};
ghost use Rattle.laws.specs.Gather.{total};
ghost use Rattle.table.specs.Table.{Table};
ghost use Rattle.reader.specs.Spans.{between};
ghost use Rattle.model.specs.Tree.{text, end};
ghost use Rattle.model.specs.Stream.{written};
ghost use Rattle.model.specs.Records.{Body, text_body};
ghost use Rattle.model.specs.Dispatch.{dispatch};
ghost use Rattle.records.specs.Rows.{body_of};
ghost use Rattle.strands.specs.Packed.{words_at};
ghost use Rattle.strands.specs.Writing.{row_for, event_count};
ghost use Rattle.strands.specs.Levels.{level_names, level_spaces, level_strands};
ghost use Rattle.sessions.specs.Sessions.{session_at, state_of, with_place, with_end};
ghost use Rattle.sessions.specs.Stepping.{event_step};
ghost use Rattle.sessions.specs.Session.{Session};
ghost use Rattle.sessions.specs.Turns.{InnerLevel, inner_records, used_step, end_row, text_head, closed_head, step_in, weighed_event};

use crate::stop;
use reader::Span;
use records::Row;
use sessions::{Head, Turn};
use strands::LEVELS;
use strands::events::{event_count, write_event};
use strands::levels::{count_at, owned_at, space_at};

// Is an output of this length too short for the records of n strands of a level? They are counted where two for each would not fit.
fn is_full(len: usize, levels: &[u32; LEVELS], level: usize, n: usize, closes: bool) -> bool
    requires { (level < 64) × (n ≤ 16) }
    ensures { result ≡ ltb (len / 16) (total (event_count closes) (words_at (level_strands levels.now) level n)) }
{
    len < 32 * n && len / 16 < event_count(levels, level, n, closes)
}

// The row for each strand of the innermost level: how many bytes they take, or none where the output has no room for them. The turn is made by the callers: handed on whole it would be copied, padding and all.
#[inline(always)]
fn write_rows(
    row: Row,
    closes: bool,
    head: Head,
    levels: &[u32; LEVELS],
    out: &mut [u8],
) -> Option<usize>
    requires { InnerLevel head levels.now }
    ensures { (at : ℕ) (next z : Session) → used_step at next z out.new result ≡ event_step at (inner_records (body_of row) closes head levels.now) next z out.old }
{
    let level = head.depth - 1;
    let n = count_at(levels, level);
    if is_full(out.len(), levels, level, n, closes) {
        return None;
    }
    Some(write_event(levels, level, n, row, closes, out))
}

// An event of the innermost level, its records counted.
fn count_turn(closes: bool, head: Head, behind: Head, levels: &[u32; LEVELS]) -> Turn
    requires { InnerLevel head levels.now }
    ensures { (b : Body) (bindings : List ℕ) → step_in result levels.now bindings [] ≡ weighed_event (inner_records b closes head levels.now) (session_at behind levels.now bindings) }
{
    let level = head.depth - 1;
    Turn {
        number: 0,
        place: behind.place,
        records: event_count(levels, level, count_at(levels, level), closes),
        head: behind,
    }
}

fn text_row(at: usize, end: usize) -> Row
    requires { (at < 4294967296) × (end < 4294967296) }
    ensures { result ≡ row_for 0 (text_body (between at end)) }
{
    Row {
        unit: 0,
        kind: 4,
        class: 0,
        at: at as u32,
        len: end.saturating_sub(at) as u32,
        uri_at: 0,
        uri_len: 0,
    }
}

// The session's numbers behind a text.
fn text_head(head: Head, end: usize) -> Head
    ensures { result ≡ text_head head end }
{
    Head { place: end, ..head }
}

// A text: 25, or its records.
pub fn text_event(at: usize, end: usize, head: Head, levels: &[u32; LEVELS], out: &mut [u8]) -> Turn
    requires { InnerLevel head levels.now × (at < 4294967296) × (end < 4294967296) }
    ensures { (t : Table) (s bindings : List ℕ) → (
        let z = session_at head levels.now bindings in
        step_in result levels.now bindings out.new
        ≡ event_step at (written (dispatch t) (state_of t s z) (text (between at end))) (with_place z end) z out.old
        ) }
{
    let row = text_row(at, end);
    let Some(used) = write_rows(row, false, head, levels, out) else {
        return stop(25, at, head);
    };
    Turn {
        number: 0,
        place: end,
        records: used / 16,
        head: text_head(head, end),
    }
}

// A text, its records counted.
pub fn weigh_text(end: usize, head: Head, levels: &[u32; LEVELS]) -> Turn
    requires { InnerLevel head levels.now }
    ensures { (t : Table) (s bindings : List ℕ) (at : ℕ) → (
        let z = session_at head levels.now bindings in
        step_in result levels.now bindings []
        ≡ weighed_event (written (dispatch t) (state_of t s z) (text (between at end))) (with_place z end)
        ) }
{
    count_turn(false, head, text_head(head, end), levels)
}

fn end_row(part: Span, levels: &[u32; LEVELS], level: usize) -> Row
    requires { (level < 64) × (get_or (level_spaces levels.now) (4 * level) 0 < 256) × (part.at < 4294967296) × (part.len < 4294967296) }
    ensures { result ≡ end_row part (level_spaces levels.now) level }
{
    Row {
        unit: 0,
        kind: 5,
        class: space_at(levels, level, 0) as u8,
        at: part.at as u32,
        len: part.len as u32,
        uri_at: space_at(levels, level, 1),
        uri_len: space_at(levels, level, 2),
    }
}

// The session's numbers behind the end of the innermost level.
fn closed_head(head: Head, place: usize, levels: &[u32; LEVELS]) -> Head
    requires { (1 ≤ head.depth) × (head.depth ≤ 64) }
    ensures { result ≡ closed_head head place (level_names levels.now) }
{
    let level = head.depth - 1;
    Head {
        place,
        closed: level == 0,
        awaited: false,
        depth: level,
        bound: head.bound.saturating_sub(owned_at(levels, level)),
        ..head
    }
}

// The end of the innermost level, its name's part, its tag's < and the place behind it: 25, or its records.
#[inline(always)]
pub fn end_event(
    part: Span,
    at: usize,
    place: usize,
    head: Head,
    levels: &[u32; LEVELS],
    out: &mut [u8],
) -> Turn
    requires { InnerLevel head levels.now × (get_or (level_spaces levels.now) (4 * (head.depth - 1)) 0 < 256) × (part.at < 4294967296) × (part.len < 4294967296) }
    ensures { (t : Table) (s bindings : List ℕ) → (
        let z = session_at head levels.now bindings in
        step_in result levels.now bindings out.new
        ≡ event_step at (written (dispatch t) (state_of t s z) (end part)) (with_end z place (eqb head.depth 1)) z out.old
        ) }
{
    let row = end_row(part, levels, head.depth - 1);
    let Some(used) = write_rows(row, true, head, levels, out) else {
        return stop(25, at, head);
    };
    Turn {
        number: 0,
        place,
        records: used / 16,
        head: closed_head(head, place, levels),
    }
}

// The end of the innermost level, its records counted.
pub fn weigh_end(place: usize, head: Head, levels: &[u32; LEVELS]) -> Turn
    requires { InnerLevel head levels.now }
    ensures { (t : Table) (s bindings : List ℕ) (part : Span) → (
        let z = session_at head levels.now bindings in
        step_in result levels.now bindings []
        ≡ weighed_event (written (dispatch t) (state_of t s z) (end part)) (with_end z place (eqb head.depth 1))
        ) }
{
    count_turn(true, head, closed_head(head, place, levels), levels)
}
