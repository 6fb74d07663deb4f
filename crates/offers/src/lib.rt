// Ask and commit for hosts written in C, C++, Rust or Python: include/calcivorne.h is the manual.
#![tactic(auto)]

mod bytes;

ghost use Rattle.std.specs.Prelude.{◌≡◌, cond, ◌≤◌, length};
ghost use Rattle.laws.specs.Over.{overwrite};
ghost use Rattle.layout.specs.Layout.{session_size};
ghost use Rattle.layout.specs.Answers.{answer_numbers, bytes_behind, too_short};
ghost use Rattle.offers.specs.Layout.{offer_size, offer_bytes};
ghost use Rattle.offers.specs.Calls.{lacks_room, byte_ask, byte_commit};

use crate::bytes::{is_offered, put_offer};
use advances::answer_of;
use asking::{ask_in, commit_in};
use layout::answers::{TOO_SHORT, no_session, tell};
use layout::storing::{SESSION_SIZE, arrays_in, head_in, holds_session, put_session};
use strands::LEVELS;
use table::Answer;

// An offer's bytes.
const OFFER_SIZE: usize = 7224;

// How many bytes an offer takes.
#[unsafe(no_mangle)]
pub extern "C" fn calcivorne_offer_size() -> u64
    ensures { result ≡ offer_size }
{
    OFFER_SIZE as u64
}

// Has one of the slices no room for what it is to hold?
fn lacks_room(session: &[u8], offer: &[u8]) -> bool
    ensures { result ≡ lacks_room session.now offer.now }
{
    session.len() < SESSION_SIZE || offer.len() < OFFER_SIZE
}

// What a step of the session in bytes would answer with an output that suffices.
fn ask_bytes(table: &[u8], scene: &[u8], session: &[u8]) -> Answer
    requires { session_size ≤ length session.now }
    ensures { result ≡ byte_ask table.now scene.now session.now }
{
    if !holds_session(session) {
        return no_session(table, scene);
    }
    let mut levels: [u32; LEVELS] = [0; LEVELS];
    let mut bindings: [u32; 256] = [0; 256];
    arrays_in(session, &mut levels, &mut bindings);
    ask_in(table, scene, head_in(session), levels, bindings)
}

// Ask: what a step would answer with an output that suffices, and an offer of it; or 255 and nothing written where a slice has no room.
#[unsafe(no_mangle)]
pub extern "C" fn calcivorne_ask(
    table: &[u8],
    scene: &[u8],
    session: &[u8],
    offer: &mut [u8],
    answer: &mut [u64; 4],
) -> u8
    ensures value { result ≡ cond (lacks_room session.now offer.old) too_short (byte_ask table.now scene.now session.now).number }
    ensures answer_after { answer.new ≡ cond (lacks_room session.now offer.old) answer.old (answer_numbers (byte_ask table.now scene.now session.now)) }
    ensures offer_after { offer.new ≡ cond (lacks_room session.now offer.old) offer.old (overwrite offer.old 0 (offer_bytes session.now (length scene.now))) }
{
    if lacks_room(session, offer) {
        return TOO_SHORT;
    }
    let a = ask_bytes(table, scene, session);
    put_offer(offer, session, scene.len());
    tell(a, answer);
    a.number
}

// A step on the session in bytes, which are written where it gave 0, if it is the one that was asked about; else 30.
fn commit_bytes(
    offer: &[u8],
    session: &mut [u8],
    table: &[u8],
    scene: &[u8],
    out: &mut [u8],
) -> Answer
    requires { (session_size ≤ length session.old) × (offer_size ≤ length offer.now) }
    ensures value { result ≡ (byte_commit offer.now session.old table.now scene.now out.old).answer }
    ensures out_after { out.new ≡ (byte_commit offer.now session.old table.now scene.now out.old).output }
    ensures session_after { session.new ≡ bytes_behind session.old (byte_commit offer.now session.old table.now scene.now out.old) }
{
    if !holds_session(session) {
        return no_session(table, scene);
    }
    let mut levels: [u32; LEVELS] = [0; LEVELS];
    let mut bindings: [u32; 256] = [0; 256];
    arrays_in(session, &mut levels, &mut bindings);
    let head = head_in(session);
    let committed = commit_in(
        is_offered(offer, scene.len(), head, &levels, &bindings),
        table,
        scene,
        head,
        &mut levels,
        &mut bindings,
        out,
    );
    let a = answer_of(committed);
    if a.events == 0 {
        return a;
    }
    put_session(session, committed.head, &levels, &bindings);
    a
}

// Commit: a step on what is handed in, where it was asked about, else 30; or 255 and nothing written where a slice has no room.
#[unsafe(no_mangle)]
pub extern "C" fn calcivorne_commit(
    offer: &[u8],
    session: &mut [u8],
    table: &[u8],
    scene: &[u8],
    out: &mut [u8],
    answer: &mut [u64; 4],
) -> u8
    ensures value { result ≡ cond (lacks_room session.old offer.now) too_short (byte_commit offer.now session.old table.now scene.now out.old).answer.number }
    ensures answer_after { answer.new ≡ cond (lacks_room session.old offer.now) answer.old (answer_numbers (byte_commit offer.now session.old table.now scene.now out.old).answer) }
    ensures out_after { out.new ≡ cond (lacks_room session.old offer.now) out.old (byte_commit offer.now session.old table.now scene.now out.old).output }
    ensures session_after { session.new ≡ cond (lacks_room session.old offer.now) session.old (bytes_behind session.old (byte_commit offer.now session.old table.now scene.now out.old)) }
{
    if lacks_room(session, offer) {
        return TOO_SHORT;
    }
    let a = commit_bytes(offer, session, table, scene, out);
    tell(a, answer);
    a.number
}
