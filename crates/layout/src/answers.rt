// An answer told to a host, and what is answered where there is no session.
ghost use Rattle.std.specs.Prelude.{◌≡◌, cond, not, length, eqb, ltb};
ghost use Rattle.table.specs.Judge.{judged};
ghost use Rattle.sessions.specs.Stepping.{answered, longest};
ghost use Rattle.layout.specs.Answers.{answer_numbers};

use judging::judge;
use sessions::LONGEST;
use table::Answer;

// What a call answers where the session's slice has no room for it.
pub const TOO_SHORT: u8 = 255;

// The answer's four numbers.
pub fn tell(a: Answer, answer: &mut [u64; 4])
    ensures { answer.new ≡ answer_numbers a }
{
    *answer = [
        a.number as u64,
        a.place as u64,
        a.events as u64,
        a.records as u64,
    ];
}

// An answer with no event.
pub fn refusal(number: u8, place: usize) -> Answer
    ensures { result ≡ answered number place 0 0 }
{
    Answer {
        number,
        place,
        events: 0,
        records: 0,
    }
}

// What bytes that hold no session are answered: 20, behind the numbers that go before it.
pub fn no_session(table: &[u8], scene: &[u8]) -> Answer
    ensures { result ≡ cond (not (eqb (judged table.now).number 0)) (answered (judged table.now).number (judged table.now).place 0 0) (cond (ltb longest (length scene.now)) (answered 7 0 0 0) (answered 20 0 0 0)) }
{
    let judged = judge(table);
    if judged.number != 0 {
        return refusal(judged.number, judged.place);
    }
    if LONGEST < scene.len() {
        return refusal(7, 0);
    }
    refusal(20, 0)
}
