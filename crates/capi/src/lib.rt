// The dispatcher for hosts written in C, C++, Rust or Python: include/calcivorne.h is the manual.
#![tactic(auto)]

ghost use Rattle.std.specs.Prelude.{◌≡◌, cond, ◌≤◌, length, ltb};
ghost use Rattle.laws.specs.Over.{overwrite};
ghost use Rattle.table.specs.Table.{standard};
ghost use Rattle.table.specs.Judge.{judged};
ghost use Rattle.sessions.specs.Sessions.{fresh_of};
ghost use Rattle.sessions.specs.Stepping.{run_of};
ghost use Rattle.uris.specs.Uris.{uri_span_of};
ghost use Rattle.layout.specs.Layout.{session_size, session_bytes};
ghost use Rattle.layout.specs.Answers.{answer_numbers, bytes_behind, too_short};
ghost use Rattle.capi.specs.Calls.{byte_step, byte_advance};
ghost use Rattle.capi.specs.Sources.{span_numbers};

use advances::{advance_in, answer_of};
use judging::judge;
use layout::answers::{TOO_SHORT, no_session, tell};
use layout::storing::{SESSION_SIZE, arrays_in, head_in, holds_session, put_fresh, put_session};
use strands::LEVELS;
use table::Answer;
use uris::{UriSpan, uri_span};

// The rule table judged.
#[unsafe(no_mangle)]
pub extern "C" fn calcivorne_judge(table: &[u8], answer: &mut [u64; 4]) -> u8
    ensures value { result ≡ (judged table.now).number }
    ensures answer_after { answer.new ≡ answer_numbers (judged table.now) }
{
    let a = judge(table);
    tell(a, answer);
    a.number
}

// A run over the whole scene: its records from the output's first byte on.
#[unsafe(no_mangle)]
pub extern "C" fn calcivorne_run(
    table: &[u8],
    scene: &[u8],
    out: &mut [u8],
    answer: &mut [u64; 4],
) -> u8
    ensures value { result ≡ (run_of standard table.now scene.now out.old).answer.number }
    ensures answer_after { answer.new ≡ answer_numbers (run_of standard table.now scene.now out.old).answer }
    ensures out_after { out.new ≡ (run_of standard table.now scene.now out.old).output }
{
    let a = dispatcher::run(table, scene, out);
    tell(a, answer);
    a.number
}

// How many bytes a session takes.
#[unsafe(no_mangle)]
pub extern "C" fn calcivorne_session_size() -> u64
    ensures { result ≡ session_size }
{
    SESSION_SIZE as u64
}

// A fresh session: 0, or 255 and nothing written where there is no room for it.
#[unsafe(no_mangle)]
pub extern "C" fn calcivorne_fresh(session: &mut [u8]) -> u8
    ensures value { result ≡ cond (ltb (length session.old) session_size) too_short 0 }
    ensures session_after { session.new ≡ cond (ltb (length session.old) session_size) session.old (overwrite session.old 0 (session_bytes fresh_of)) }
{
    if session.len() < SESSION_SIZE {
        return TOO_SHORT;
    }
    put_fresh(session);
    0
}

// At most so many events of the session in bytes, which are written where a step gave 0.
fn advance_bytes(
    table: &[u8],
    scene: &[u8],
    session: &mut [u8],
    most: usize,
    out: &mut [u8],
) -> Answer
    requires { session_size ≤ length session.old }
    ensures value { result ≡ (byte_advance most table.now scene.now session.old out.old).answer }
    ensures out_after { out.new ≡ (byte_advance most table.now scene.now session.old out.old).output }
    ensures session_after { session.new ≡ bytes_behind session.old (byte_advance most table.now scene.now session.old out.old) }
{
    if !holds_session(session) {
        return no_session(table, scene);
    }
    let mut levels: [u32; LEVELS] = [0; LEVELS];
    let mut bindings: [u32; 256] = [0; 256];
    arrays_in(session, &mut levels, &mut bindings);
    let advanced = advance_in(
        table,
        scene,
        head_in(session),
        &mut levels,
        &mut bindings,
        most,
        out,
    );
    let a = answer_of(advanced);
    if a.events == 0 {
        return a;
    }
    put_session(session, advanced.head, &levels, &bindings);
    a
}

// A step: one event, or 255 and nothing written where the session has no room.
#[unsafe(no_mangle)]
pub extern "C" fn calcivorne_step(
    table: &[u8],
    scene: &[u8],
    session: &mut [u8],
    out: &mut [u8],
    answer: &mut [u64; 4],
) -> u8
    ensures value { result ≡ cond (ltb (length session.old) session_size) too_short (byte_step table.now scene.now session.old out.old).answer.number }
    ensures answer_after { answer.new ≡ cond (ltb (length session.old) session_size) answer.old (answer_numbers (byte_step table.now scene.now session.old out.old).answer) }
    ensures out_after { out.new ≡ cond (ltb (length session.old) session_size) out.old (byte_step table.now scene.now session.old out.old).output }
    ensures session_after { session.new ≡ cond (ltb (length session.old) session_size) session.old (bytes_behind session.old (byte_step table.now scene.now session.old out.old)) }
{
    if session.len() < SESSION_SIZE {
        return TOO_SHORT;
    }
    let a = advance_bytes(table, scene, session, 1, out);
    tell(a, answer);
    a.number
}

// An advance: at most so many steps, until one's number is not 0, their records joined; or 255 and nothing written where the session has no room.
#[unsafe(no_mangle)]
pub extern "C" fn calcivorne_advance(
    table: &[u8],
    scene: &[u8],
    session: &mut [u8],
    most: u64,
    out: &mut [u8],
    answer: &mut [u64; 4],
) -> u8
    ensures value { result ≡ cond (ltb (length session.old) session_size) too_short (byte_advance most table.now scene.now session.old out.old).answer.number }
    ensures answer_after { answer.new ≡ cond (ltb (length session.old) session_size) answer.old (answer_numbers (byte_advance most table.now scene.now session.old out.old).answer) }
    ensures out_after { out.new ≡ cond (ltb (length session.old) session_size) out.old (byte_advance most table.now scene.now session.old out.old).output }
    ensures session_after { session.new ≡ cond (ltb (length session.old) session_size) session.old (bytes_behind session.old (byte_advance most table.now scene.now session.old out.old)) }
{
    if session.len() < SESSION_SIZE {
        return TOO_SHORT;
    }
    let a = advance_bytes(table, scene, session, most as usize, out);
    tell(a, answer);
    a.number
}

// The span's three numbers: its source, 0 for the table and 1 for the scene, its place and length.
fn tell_span(u: UriSpan, span: &mut [u64; 3])
    ensures { span.new ≡ span_numbers u }
{
    *span = [u.source as u64, u.at as u64, u.len as u64];
}

// Where the URI of a record's class and span stands: source, place and length.
#[unsafe(no_mangle)]
pub extern "C" fn calcivorne_uri(
    table: &[u8],
    scene: &[u8],
    class: u8,
    at: u64,
    len: u64,
    span: &mut [u64; 3],
) -> u8
    ensures value { result ≡ 0 }
    ensures span_after { span.new ≡ span_numbers (uri_span_of table.now scene.now class at len) }
{
    tell_span(
        uri_span(table, scene, class, at as usize, len as usize),
        span,
    );
    0
}
