// Lines of numbers on standard output.
use crate::rows::row_in;
use records::Row;
use std::io;
use table::Answer;

// Words on a line of their own.
pub fn print_heading(rt: &impl Print, words: &[u8]) -> io::Result<()> {
    rt.write_all(words)?;
    rt.write_all(b"\n")
}

// A record's seven fields on a line.
fn print_row(rt: &impl Print, r: Row) -> io::Result<()> {
    let Row {
        unit,
        kind,
        class,
        at,
        len,
        uri_at,
        uri_len,
    } = r;
    println!(rt; "{unit} {kind} {class} {at} {len} {uri_at} {uri_len}")
}

// A line for each of so many records, of 16 bytes each, from the output's first byte on; no more than the output has.
pub fn print_records(rt: &impl Print, out: &[u8], count: usize) -> io::Result<()> {
    for bytes in out.chunks_exact(16).take(count) {
        print_row(rt, row_in(bytes))?;
    }
    Ok(())
}

// What a call answers, on a line: its number, its place, its events and its records.
pub fn print_answer(rt: &impl Print, answer: Answer) -> io::Result<()> {
    let Answer {
        number,
        place,
        events,
        records,
    } = answer;
    println!(rt; "{number} {place} {events} {records}")
}
