// A start tag read: 1 to 3, then 5 and 6, and what it means.
ghost use Rattle.std.specs.Prelude.{◌≡◌, List, ℕ, ◌+◌, ◌≤◌, length, Ok};
ghost use Rattle.table.specs.declared.Header.{Header};
ghost use Rattle.lexer.specs.Attrs.{attrs_in};
ghost use Rattle.lexer.specs.Tags.{tag_at};
ghost use Rattle.reader.specs.Known.{KeysAt};
ghost use Rattle.sessions.specs.Sessions.{session_of};
ghost use Rattle.sessions.specs.Turns.{TurnReady, Beside, ReadAs};

use lexer::Tag;
use namespaces::meaning;
use reader::Scope;
use reader::kinds::all_plain;
use sessions::{BINDINGS, Head, Refusal, Scratch, Started};
use tags::start_tag;

// What a tag that was read means: 5, 6, or a start.
fn read_meaning(
    scene: &[u8],
    at: usize,
    tag: Tag,
    head: Head,
    bindings: &[u32; 4 * BINDINGS],
    known: &mut [u64; 2 * Scope::KNOWN],
    scratch: &mut Scratch,
) -> Result<Started, Refusal>
    requires { (at + 1 ≤ length scene.now) × (head.bound ≤ 64) × KeysAt scene.now bindings.now head.bound 0 known.old }
    ensures { (table index levels spaces strands : List ℕ) (header : Header) → (
        let s = scene.now in
        let z = session_of head levels bindings.now spaces strands in
        TurnReady table header index s z
        → Beside table s known.old z
        → (tag_at s (at + 1)).answer ≡ Ok tag
        → attrs_in scratch.old.attrs tag.count ≡ (tag_at s (at + 1)).attrs
        → ReadAs table s z at (Ok tag) scratch.new.own scratch.new.attrs scratch.new.codes known.new result
        ) }
{
    let plain = all_plain(scene, &scratch.attrs, tag.count);
    let name = tag.name;
    match meaning(
        scene,
        name,
        &scratch.attrs,
        tag.count,
        plain,
        &mut scratch.own,
        bindings,
        head.bound,
        known,
        &mut scratch.codes,
    ) {
        Ok(element) => Ok(Started {
            at,
            tag,
            found: element.found,
            owned: element.owned,
            plain,
        }),
        Err(error) => Err(Refusal {
            number: error.number(),
            place: at,
        }),
    }
}

// The start tag whose < stands at a place.
pub fn read_start(
    scene: &[u8],
    at: usize,
    head: Head,
    bindings: &[u32; 4 * BINDINGS],
    known: &mut [u64; 2 * Scope::KNOWN],
    scratch: &mut Scratch,
) -> Result<Started, Refusal>
    requires { (at + 1 ≤ length scene.now) × (head.bound ≤ 64) × KeysAt scene.now bindings.now head.bound 0 known.old }
    ensures { (table index levels spaces strands : List ℕ) (header : Header) → (
        let s = scene.now in
        let z = session_of head levels bindings.now spaces strands in
        TurnReady table header index s z
        → Beside table s known.old z
        → ReadAs table s z at (tag_at s (at + 1)).answer scratch.new.own scratch.new.attrs scratch.new.codes known.new result
        ) }
{
    match start_tag(scene, at + 1, &mut scratch.attrs) {
        Ok(tag) => read_meaning(scene, at, tag, head, bindings, known, scratch),
        Err(x) => Err(Refusal::stopped(scene, x)),
    }
}
