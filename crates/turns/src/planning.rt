// A text and an end, as they come next: read, and decided without an output.
ghost use Rattle.std.specs.Prelude.{◌≡◌, List, true, ℕ, Ok, ◌+◌, ◌≤◌, ◌<◌, length};
ghost use Rattle.table.specs.Table.{decode};
ghost use Rattle.reader.specs.Scope.{opens_of};
ghost use Rattle.reader.specs.Held.{SpanHeld};
ghost use Rattle.reader.specs.Events.{text_read, end_read};
ghost use Rattle.lexer.specs.Values.{text_end};
ghost use Rattle.lexer.specs.Tags.{end_tag_at};
ghost use Rattle.strands.specs.Levels.{level_names, level_spaces};
ghost use Rattle.sessions.specs.Sessions.{session_at, reader_of};
ghost use Rattle.sessions.specs.Stepping.{plan_by, plan_of};
ghost use Rattle.sessions.specs.Session.{Session};
ghost use Rattle.sessions.specs.Turns.{Innermost, closes_at, PlannedAs};

use compare::same;
use lexer::EndTag;
use reader::Span;
use reader::scopes::{part_in, same_name};
use sessions::{Head, Planned, Refusal};
use strands::LEVELS;
use strands::levels::name_at;
use tags::end_tag;
use values::text_end;

// The text whose first byte stands at a place.
pub fn plan_text(scene: &[u8], at: usize) -> Result<Planned, Refusal>
    requires { (length scene.now ≤ 16777215) × (at ≤ length scene.now) }
    ensures { (table index own words schemas attributes : List ℕ) (z : Session) → (
        let s = scene.now in
        1 ≤ z.scope.depth → PlannedAs table index s z own words schemas attributes result (plan_by (decode table) s z (text_read s (reader_of z) at (text_end s at)))
        ) }
{
    match text_end(scene, at) {
        Ok(end) => Ok(Planned::Text { at, end }),
        Err(x) => Err(Refusal::stopped(scene, x)),
    }
}

// The end of a tag />, which no byte makes.
pub fn plan_awaited(scene: &[u8], head: Head, levels: &[u32; LEVELS]) -> Planned
    requires { Innermost scene.now head (level_names levels.now) (level_spaces levels.now) × (head.awaited ≡ true) }
    ensures { (table index own words schemas attributes bindings : List ℕ) → (
        let s = scene.now in
        let z = session_at head levels.now bindings in
        PlannedAs table index s z own words schemas attributes (Ok result) (plan_of (decode table) s z)
        ) }
{
    let name = name_at(levels, head.depth - 1);
    Planned::Awaited {
        part: part_in(scene, name),
        at: name.at.saturating_sub(1),
    }
}

// An end tag that was read: 4, or its end.
fn plan_named(
    scene: &[u8],
    at: usize,
    tag: EndTag,
    head: Head,
    levels: &[u32; LEVELS],
) -> Result<Planned, Refusal>
    requires { Innermost scene.now head (level_names levels.now) (level_spaces levels.now) × (tag.name.end < 4294967296) × (tag.name.part < 4294967296) }
    ensures { (table index own words schemas attributes bindings : List ℕ) → (
        let s = scene.now in
        let z = session_at head levels.now bindings in
        PlannedAs table index s z own words schemas attributes result (plan_by (decode table) s z (end_read s at (opens_of z.scope) (Ok tag)))
        ) }
{
    let name = tag.name;
    let whole = Span::between(name.at, name.end);
    if !same_name(scene, whole, name_at(levels, head.depth - 1)) {
        return Err(Refusal {
            number: 4,
            place: at,
        });
    }
    Ok(Planned::End {
        part: Span::between(name.part, name.end),
        at,
        place: tag.next,
    })
}

// Do the bytes of a name of the scene and a > stand at a place?
fn closes(scene: &[u8], at: usize, name: Span) -> bool
    requires { (length scene.now ≤ 16777215) × (at ≤ length scene.now) × SpanHeld scene.now name }
    ensures { result ≡ closes_at scene.now at name }
{
    let end = at + name.len;
    let name = &scene[name.at..name.at + name.len];
    end < scene.len() && scene[end] == b'>' && same(&scene[at..end], name)
}

// The end tag whose < stands at a place: the innermost open name and a >, or what is read there.
pub fn plan_end(
    scene: &[u8],
    at: usize,
    head: Head,
    levels: &[u32; LEVELS],
) -> Result<Planned, Refusal>
    requires { Innermost scene.now head (level_names levels.now) (level_spaces levels.now) × (at + 2 ≤ length scene.now) }
    ensures { (table index own words schemas attributes bindings : List ℕ) → (
        let s = scene.now in
        let z = session_at head levels.now bindings in
        PlannedAs table index s z own words schemas attributes result (plan_by (decode table) s z (end_read s at (opens_of z.scope) (end_tag_at s (at + 2))))
        ) }
{
    let open = name_at(levels, head.depth - 1);
    if closes(scene, at + 2, open) {
        let name = Span {
            at: at + 2,
            len: open.len,
        };
        return Ok(Planned::End {
            part: part_in(scene, name),
            at,
            place: at + 3 + open.len,
        });
    }
    match end_tag(scene, at + 2) {
        Ok(tag) => plan_named(scene, at, tag, head, levels),
        Err(x) => Err(Refusal::stopped(scene, x)),
    }
}
