// An offer in a host's bytes: stored, and held against a session.
ghost use Rattle.std.specs.Prelude.{◌≡◌, ◌&&◌, ◌+◌, ◌≤◌, length, take, eqb};
ghost use Rattle.laws.specs.Over.{overwrite};
ghost use Rattle.strands.specs.Levels.{level_spaces};
ghost use Rattle.equality.specs.Checks.{within_arrays};
ghost use Rattle.sessions.specs.Sessions.{session_at};
ghost use Rattle.sessions.specs.Asking.{holds_same};
ghost use Rattle.layout.specs.Layout.{session_size};
ghost use Rattle.offers.specs.Layout.{offer_size, offer_in, holds_offer, offer_bytes};

use asking::same_session;
use layout::storing::{SESSION_SIZE, arrays_in, head_in, holds_session, put8, word8_at};
use sessions::Head;
use strands::LEVELS;

// A session's bytes, laid over those of `b` from `at` on. One by one: of `copy_from_slice` the archive would need `memmove` too.
fn put_bytes(b: &mut [u8], at: usize, session: &[u8])
    requires { (at + session_size ≤ length b.old) × (session_size ≤ length session.now) }
    ensures { b.new ≡ overwrite b.old at (take session_size session.now) }
{
    for i in 0..SESSION_SIZE {
        b[at + i] = session[i];
    }
}

// The bytes of an offer, laid over the first of `offer`.
pub fn put_offer(offer: &mut [u8], session: &[u8], len: usize)
    requires { (offer_size ≤ length offer.old) × (session_size ≤ length session.now) }
    ensures { offer.new ≡ overwrite offer.old 0 (offer_bytes session.now len) }
{
    put8(offer, 0, 1);
    put8(offer, 8, len);
    put_bytes(offer, 16, session);
}

// Do the bytes hold an offer of this session, which has no more levels, bindings and strands than its arrays have places for, and of a scene of so many bytes?
pub fn is_offered(
    offer: &[u8],
    len: usize,
    head: Head,
    levels: &[u32; LEVELS],
    bindings: &[u32; 256],
) -> bool
    requires { offer_size ≤ length offer.now }
    ensures { result ≡ (holds_offer offer.now && ((within_arrays head.depth head.bound (level_spaces levels.now) && holds_same (session_at head levels.now bindings.now) (offer_in offer.now).session) && eqb len (offer_in offer.now).length)) }
{
    if word8_at(offer, 0) != 1 {
        return false;
    }
    let asked = &offer[16..];
    if !holds_session(asked) {
        return false;
    }
    let mut asked_levels: [u32; LEVELS] = [0; LEVELS];
    let mut asked_bindings: [u32; 256] = [0; 256];
    arrays_in(asked, &mut asked_levels, &mut asked_bindings);
    let same = same_session(
        head,
        levels,
        bindings,
        head_in(asked),
        &asked_levels,
        &asked_bindings,
    );
    same & (len == word8_at(offer, 8))
}
