// Samples of single steps.
ghost use Rattle.std.specs.Prelude.{◌≤◌, length};

use dispatcher::Session;
use printing::lines::{print_answer, print_records};
use std::io;
use table::Answer;

// A step from a fresh session.
pub fn first_step(rt: &impl Print, table: &[u8], scene: &[u8], out: &mut [u8]) -> io::Result<()> {
    let session = Session::fresh();
    let stepped = session.step(table, scene, out);
    let answer = stepped.answer;
    print_records(rt, out, answer.records)?;
    print_answer(rt, answer)
}

// Steps over the scene's first bytes, at first none: a number that is not 0 lets one byte more be seen. The records that are printed are those of
// all accepted steps, joined; then come the last step's number and place, how many steps were accepted, and how many records they wrote.
pub fn cut_at_every_byte(
    rt: &impl Print,
    table: &[u8],
    scene: &[u8],
    out: &mut [u8],
) -> io::Result<()>
    requires { (length scene.now ≤ 65536) × (length out.old ≤ 65536) }
{
    let mut session = Session::fresh();
    let mut records = 0;
    let mut events = 0;
    let mut cut = 0;
    for _ in 0..3 * scene.len() + 3 {
        let stepped = session.step(table, &scene[..cut], out);
        let answer = stepped.answer;
        print_records(rt, out, answer.records)?;
        events += answer.events;
        records += answer.records;
        session = stepped.session;
        if answer.number != 0 {
            if cut == scene.len() {
                let last = Answer {
                    events,
                    records,
                    ..answer
                };
                return print_answer(rt, last);
            }
            cut += 1;
        }
    }
    Ok(())
}
