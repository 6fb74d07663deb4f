// Ask and commit as a static library for hosts: each call is that of `offers`. include/calcivorne.h is the manual. A crate is a library or a static library and not both, so that the C interface needs the calls here once more.
#![tactic(auto)]

ghost use Rattle.std.specs.Prelude.{◌≡◌, cond, length};
ghost use Rattle.laws.specs.Over.{overwrite};
ghost use Rattle.layout.specs.Answers.{answer_numbers, bytes_behind, too_short};
ghost use Rattle.offers.specs.Layout.{offer_size, offer_bytes};
ghost use Rattle.offers.specs.Calls.{lacks_room, byte_ask, byte_commit};

// How many bytes an offer takes.
#[unsafe(no_mangle)]
pub extern "C" fn calcivorne_offer_size() -> u64
    ensures { result ≡ offer_size }
{
    offers::calcivorne_offer_size()
}

// Ask: what a step would answer with an output that suffices, and an offer of it; or 255 and nothing written where a slice has no room.
#[unsafe(no_mangle)]
pub extern "C" fn calcivorne_ask(
    table: &[u8],
    scene: &[u8],
    session: &[u8],
    offer: &mut [u8],
    answer: &mut [u64; 4],
) -> u8
    ensures value { result ≡ cond (lacks_room session.now offer.old) too_short (byte_ask table.now scene.now session.now).number }
    ensures answer_after { answer.new ≡ cond (lacks_room session.now offer.old) answer.old (answer_numbers (byte_ask table.now scene.now session.now)) }
    ensures offer_after { offer.new ≡ cond (lacks_room session.now offer.old) offer.old (overwrite offer.old 0 (offer_bytes session.now (length scene.now))) }
{
    offers::calcivorne_ask(table, scene, session, offer, answer)
}

// Commit: a step on what is handed in, where it was asked about, else 30; or 255 and nothing written where a slice has no room.
#[unsafe(no_mangle)]
pub extern "C" fn calcivorne_commit(
    offer: &[u8],
    session: &mut [u8],
    table: &[u8],
    scene: &[u8],
    out: &mut [u8],
    answer: &mut [u64; 4],
) -> u8
    ensures value { result ≡ cond (lacks_room session.old offer.now) too_short (byte_commit offer.now session.old table.now scene.now out.old).answer.number }
    ensures answer_after { answer.new ≡ cond (lacks_room session.old offer.now) answer.old (answer_numbers (byte_commit offer.now session.old table.now scene.now out.old).answer) }
    ensures out_after { out.new ≡ cond (lacks_room session.old offer.now) out.old (byte_commit offer.now session.old table.now scene.now out.old).output }
    ensures session_after { session.new ≡ cond (lacks_room session.old offer.now) session.old (bytes_behind session.old (byte_commit offer.now session.old table.now scene.now out.old)) }
{
    offers::calcivorne_commit(offer, session, table, scene, out, answer)
}
