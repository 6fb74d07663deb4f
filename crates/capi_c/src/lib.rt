// The dispatcher's calls as a static library for hosts written in C, C++, Rust or Python: each is that of `capi`. include/calcivorne.h is the manual. A crate is a library or a static library and not both, so that the C interface needs the calls here once more.
#![tactic(auto)]

ghost use Rattle.std.specs.Prelude.{◌≡◌, cond, length, ltb};
ghost use Rattle.laws.specs.Over.{overwrite};
ghost use Rattle.table.specs.Table.{standard};
ghost use Rattle.table.specs.Judge.{judged};
ghost use Rattle.sessions.specs.Sessions.{fresh_of};
ghost use Rattle.sessions.specs.Stepping.{run_of};
ghost use Rattle.uris.specs.Uris.{uri_span_of};
ghost use Rattle.layout.specs.Layout.{session_size, session_bytes};
ghost use Rattle.layout.specs.Answers.{answer_numbers, bytes_behind, too_short};
ghost use Rattle.capi.specs.Calls.{byte_step, byte_advance};
ghost use Rattle.capi.specs.Sources.{span_numbers};

// The rule table judged.
#[unsafe(no_mangle)]
pub extern "C" fn calcivorne_judge(table: &[u8], answer: &mut [u64; 4]) -> u8
    ensures value { result ≡ (judged table.now).number }
    ensures answer_after { answer.new ≡ answer_numbers (judged table.now) }
{
    capi::calcivorne_judge(table, answer)
}

// A run over the whole scene: its records from the output's first byte on.
#[unsafe(no_mangle)]
pub extern "C" fn calcivorne_run(
    table: &[u8],
    scene: &[u8],
    out: &mut [u8],
    answer: &mut [u64; 4],
) -> u8
    ensures value { result ≡ (run_of standard table.now scene.now out.old).answer.number }
    ensures answer_after { answer.new ≡ answer_numbers (run_of standard table.now scene.now out.old).answer }
    ensures out_after { out.new ≡ (run_of standard table.now scene.now out.old).output }
{
    capi::calcivorne_run(table, scene, out, answer)
}

// How many bytes a session takes.
#[unsafe(no_mangle)]
pub extern "C" fn calcivorne_session_size() -> u64
    ensures { result ≡ session_size }
{
    capi::calcivorne_session_size()
}

// A fresh session: 0, or 255 and nothing written where there is no room for it.
#[unsafe(no_mangle)]
pub extern "C" fn calcivorne_fresh(session: &mut [u8]) -> u8
    ensures value { result ≡ cond (ltb (length session.old) session_size) too_short 0 }
    ensures session_after { session.new ≡ cond (ltb (length session.old) session_size) session.old (overwrite session.old 0 (session_bytes fresh_of)) }
{
    capi::calcivorne_fresh(session)
}

// A step: one event, or 255 and nothing written where the session has no room.
#[unsafe(no_mangle)]
pub extern "C" fn calcivorne_step(
    table: &[u8],
    scene: &[u8],
    session: &mut [u8],
    out: &mut [u8],
    answer: &mut [u64; 4],
) -> u8
    ensures value { result ≡ cond (ltb (length session.old) session_size) too_short (byte_step table.now scene.now session.old out.old).answer.number }
    ensures answer_after { answer.new ≡ cond (ltb (length session.old) session_size) answer.old (answer_numbers (byte_step table.now scene.now session.old out.old).answer) }
    ensures out_after { out.new ≡ cond (ltb (length session.old) session_size) out.old (byte_step table.now scene.now session.old out.old).output }
    ensures session_after { session.new ≡ cond (ltb (length session.old) session_size) session.old (bytes_behind session.old (byte_step table.now scene.now session.old out.old)) }
{
    capi::calcivorne_step(table, scene, session, out, answer)
}

// An advance: at most so many steps, until one's number is not 0, their records joined; or 255 and nothing written where the session has no room.
#[unsafe(no_mangle)]
pub extern "C" fn calcivorne_advance(
    table: &[u8],
    scene: &[u8],
    session: &mut [u8],
    most: u64,
    out: &mut [u8],
    answer: &mut [u64; 4],
) -> u8
    ensures value { result ≡ cond (ltb (length session.old) session_size) too_short (byte_advance most table.now scene.now session.old out.old).answer.number }
    ensures answer_after { answer.new ≡ cond (ltb (length session.old) session_size) answer.old (answer_numbers (byte_advance most table.now scene.now session.old out.old).answer) }
    ensures out_after { out.new ≡ cond (ltb (length session.old) session_size) out.old (byte_advance most table.now scene.now session.old out.old).output }
    ensures session_after { session.new ≡ cond (ltb (length session.old) session_size) session.old (bytes_behind session.old (byte_advance most table.now scene.now session.old out.old)) }
{
    capi::calcivorne_advance(table, scene, session, most, out, answer)
}

// Where the URI of a record's class and span stands: source, place and length.
#[unsafe(no_mangle)]
pub extern "C" fn calcivorne_uri(
    table: &[u8],
    scene: &[u8],
    class: u8,
    at: u64,
    len: u64,
    span: &mut [u64; 3],
) -> u8
    ensures value { result ≡ 0 }
    ensures span_after { span.new ≡ span_numbers (uri_span_of table.now scene.now class at len) }
{
    capi::calcivorne_uri(table, scene, class, at, len, span)
}
