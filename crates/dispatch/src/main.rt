// Dispatches scene.xml by rules.bin: a line for each record, then the last step's number and place, the events and the records.
#![tactic(auto)]

ghost use Rattle.std.specs.Prelude.{◌≤◌, length};

use dispatcher::Session;
use printing::files::read_file;
use printing::lines::{print_answer, print_records};
use std::io;
use std::rt::Files;
use table::Answer;

// Steps from a fresh session until a number is not 0, and prints the records. Each event reads a byte or ends an awaited end, so that many steps suffice.
fn dispatch_scene(rt: &impl Print, table: &[u8], scene: &[u8], out: &mut [u8]) -> io::Result<Answer>
    requires { (length scene.now ≤ 65536) × (length out.old ≤ 65536) }
{
    let steps = 2 * scene.len() + 2;
    let mut session = Session::fresh();
    let mut records = 0;
    for events in 0..steps {
        let stepped = session.step(table, scene, out);
        let answer = stepped.answer;
        if answer.number != 0 {
            return Ok(Answer {
                events,
                records,
                ..answer
            });
        }
        print_records(rt, out, answer.records)?;
        records += answer.records;
        session = stepped.session;
    }
    Ok(Answer {
        number: 0,
        place: session.place,
        events: steps,
        records,
    })
}

// Both files are read before a line is printed.
fn dispatch_files(
    rt: &(impl Files + Print + Eprint),
    table: &mut [u8],
    scene: &mut [u8],
    out: &mut [u8],
) -> io::Result<()>
    requires { (length scene.old ≤ 65536) × (length out.old ≤ 65536) }
{
    let rules_read = read_file(rt, b"rules.bin", table);
    let scene_read = read_file(rt, b"scene.xml", scene);
    let (Some(rules), Some(scene)) = (rules_read, scene_read) else {
        return Ok(());
    };
    let answer = dispatch_scene(rt, rules, scene, out)?;
    print_answer(rt, answer)
}

fn main(rt: HostRuntime) -> io::Result<()> {
    let mut table = [0u8; 65536];
    let mut scene = [0u8; 65536];
    let mut out = [0u8; 65536];
    dispatch_files(&rt, &mut table, &mut scene, &mut out)
}
