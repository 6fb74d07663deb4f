// One event's turn: a text and an end, decided as they come next; a text, an end and a start, written or counted.
#![tactic(auto)]

pub mod ends;
pub mod opening;
pub mod planning;

ghost use Rattle.std.specs.Prelude.{◌≡◌};
ghost use Rattle.sessions.specs.Turns.{stop_turn};

use sessions::{Head, Turn};

// A refusal: the session's numbers stay.
pub fn stop(number: u8, place: usize, head: Head) -> Turn
    ensures { result ≡ stop_turn number place head }
{
    Turn {
        number,
        place,
        records: 0,
        head,
    }
}
