// The URI of a record's class and span: where it stands, and its bytes.
#![tactic(auto)]

ghost use Rattle.std.specs.Prelude.{◌≡◌, ◌+◌, length, leb};
ghost use Rattle.uris.specs.Uris.{uri_span_of, uri_part, uri_place};

use compare::part_of;
use judging::judge;
use table::uris::place_of;
use table::words::header_of;

// Where a URI stands: in the table or in the scene, its place and its length.
#[derive(Clone, Copy)]
pub struct UriSpan {
    pub source: Source,
    pub at: usize,
    pub len: usize,
}

#[derive(Clone, Copy)]
pub enum Source {
    Table,
    Scene,
}

// Does the span lie inside the slice?
fn lies_in(s: &[u8], at: usize, len: usize) -> bool
    ensures { result ≡ leb (at + len) (length s.now) }
{
    len <= s.len() && at <= s.len() - len
}

// Where the URI stands: in the table for a listed class, in the scene for 255 with a span inside it; else it is empty, at the scene's start.
pub fn uri_span(table: &[u8], scene: &[u8], class: u8, at: usize, len: usize) -> UriSpan
    ensures { result ≡ uri_span_of table.now scene.now class at len }
{
    let nowhere = UriSpan {
        source: Source::Scene,
        at: 0,
        len: 0,
    };
    if judge(table).number != 0 {
        return nowhere;
    }
    if let Some(u) = place_of(table, header_of(table), class) {
        return UriSpan {
            source: Source::Table,
            at: u.at,
            len: u.len,
        };
    }
    if class == 255 && lies_in(scene, at, len) {
        return UriSpan {
            source: Source::Scene,
            at,
            len,
        };
    }
    nowhere
}

// The URI: the part of the table or of the scene that uri_span names, at its place and of its length.
pub fn uri<'a>(table: &'a [u8], scene: &'a [u8], class: u8, at: usize, len: usize) -> &'a [u8]
    ensures place { result.ref_ptr ≡ uri_place table.entry scene.entry class at len }
    ensures bytes { result.now ≡ uri_part table.now scene.now class at len }
{
    let span = uri_span(table, scene, class, at, len);
    match span.source {
        Source::Table => part_of(table, span.at, span.len),
        Source::Scene => part_of(scene, span.at, span.len),
    }
}
