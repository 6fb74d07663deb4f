// What a start makes, decided before anything is written: its strands, its attribute sections, its units and how many records.
ghost use Rattle.std.specs.Prelude.{◌≡◌, List, true, ℕ, ◌+◌, ◌*◌, ◌-◌, ◌≤◌, ◌<◌, get_or};
ghost use Rattle.laws.specs.Lists.{all};
ghost use Rattle.laws.specs.Members.{All};
ghost use Rattle.table.specs.Table.{decode};
ghost use Rattle.table.specs.declared.Header.{Header};
ghost use Rattle.lexer.specs.Attrs.{attrs_in};
ghost use Rattle.reader.specs.Stored.{stored_space, Coded, coded};
ghost use Rattle.reader.specs.Known.{plain_attr};
ghost use Rattle.model.specs.Elements as elements;
ghost use Rattle.attributes.specs.Known.{ClassesAt};
ghost use Rattle.attributes.specs.Attributes.{placing_of, sections_in, attributes_in};
ghost use Rattle.strands.specs.Levels.{level_spaces};
ghost use Rattle.sessions.specs.Sessions.{session_at};
ghost use Rattle.sessions.specs.Turns.{TurnReady, Beside, Met, DecidedAs, start_of};

use attributes::Placing;
use attributes::held::{hold, hold_plain};
use attributes::sections::number_sections;
use openings::Decided;
use openings::entering::next_strands;
use openings::weighing::weigh;
use reader::Scope;
use sessions::{BINDINGS, Head, Refusal, Scratch, Started};
use strands::LEVELS;

// What a start makes; or 23 or 24.
pub fn decide(
    index: &[u32; 256],
    scene: &[u8],
    started: Started,
    placing: Placing,
    head: Head,
    outer: &[u32; 4 * BINDINGS],
    known: &[u64; 2 * Scope::KNOWN],
    levels: &[u32; LEVELS],
    scratch: &mut Scratch,
) -> Result<Decided, Refusal>
    requires { (head.depth < 64) × (head.units ≤ 65536) × (1 ≤ head.depth → get_or (level_spaces levels.now) (4 * (head.depth - 1) + 3) 0 ≤ 16) × (head.bound ≤ 64) × All (λ (c : Coded). c.code < 82) (coded (attrs_in scratch.old.attrs started.tag.count) scratch.old.codes) × (started.plain ≡ true → all (plain_attr scene.now) (attrs_in scratch.old.attrs started.tag.count) ≡ true) }
    ensures decided { (table : List ℕ) (header : Header) → (
        let s = scene.now in
        let t = decode table in
        let z = session_at head levels.now outer.now in
        let e = start_of s outer.now scratch.old.own scratch.old.attrs scratch.old.codes started.at started.tag started.found in
        TurnReady table header index.now s z
        → Beside table s known.now z
        → ClassesAt t s scratch.old.own started.owned head.bound known.now
        → Met s outer.now scratch.old.own scratch.old.attrs scratch.old.codes known.now head.bound started
        → placing ≡ placing_of (elements.space_of t s (stored_space scratch.old.own outer.now started.found))
        → DecidedAs t s z (elements.element_of t s e) result scratch.new.words scratch.new.schemas (attributes_in scratch.new.attributes) (sections_in scratch.new.attributes)
        ) }
    ensures own_unchanged { scratch.new.own ≡ scratch.old.own }
    ensures attrs_unchanged { (scratch.new.attrs ≡ scratch.old.attrs) × (scratch.new.codes ≡ scratch.old.codes) }
{
    let found = started.found;
    let Some(count) = next_strands(
        index,
        scene,
        &scratch.own,
        outer,
        found,
        placing,
        head.depth,
        levels,
        &mut scratch.words,
        &mut scratch.schemas,
    ) else {
        return Err(Refusal {
            number: 23,
            place: started.at,
        });
    };
    let heavy = Refusal {
        number: 24,
        place: started.at,
    };
    let tag = started.tag;
    if started.plain {
        let k = hold_plain(&scratch.attrs, tag.count, &mut scratch.attributes);
        return weigh(
            index,
            &scratch.attributes,
            k,
            0,
            count,
            head.units,
            &mut scratch.words,
        )
        .ok_or(heavy);
    }
    let n = hold(
        scene,
        &scratch.attrs,
        tag.count,
        &scratch.own,
        outer,
        head.bound,
        known,
        &scratch.codes,
        &mut scratch.attributes,
    );
    let m = number_sections(
        scene,
        &scratch.own,
        outer,
        found,
        &mut scratch.attributes,
        n,
    );
    weigh(
        index,
        &scratch.attributes,
        n,
        m,
        count,
        head.units,
        &mut scratch.words,
    )
    .ok_or(heavy)
}
