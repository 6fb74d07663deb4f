// The URI of a record's class and span, looked up.
use printing::lines::print_heading;
use std::io;
use uris::{Source, uri, uri_span};

// A line: class and span; which slice the URI is a part of, its place and length there; its bytes.
fn look_up(
    rt: &impl Print,
    table: &[u8],
    scene: &[u8],
    class: u8,
    at: usize,
    len: usize,
) -> io::Result<()> {
    let span = uri_span(table, scene, class, at, len);
    let source = match span.source {
        Source::Table => "table",
        Source::Scene => "scene",
    };
    print!(rt; "{class} {at} {len}: {source} {} {} [", span.at, span.len)?;
    rt.write_all(uri(table, scene, class, at, len))?;
    println!(rt; "]")
}

// Listed classes, with any span; then classes that are neither listed nor 255.
fn by_class(rt: &impl Print, table: &[u8], scene: &[u8]) -> io::Result<()> {
    look_up(rt, table, scene, 1, 0, 0)?;
    look_up(rt, table, scene, 2, 100, 100)?;
    for class in [0, 3, 252, 253, 254] {
        look_up(rt, table, scene, class, 27, 3)?;
    }
    Ok(())
}

// Class 255: spans inside the scene, empty ones too; then spans that are not.
fn by_span(rt: &impl Print, table: &[u8], scene: &[u8]) -> io::Result<()> {
    let inside = [(27, 3), (0, 37), (27, 0), (37, 0)];
    let outside = [(38, 0), (36, 2), (usize::MAX, 2)];
    for (at, len) in inside.into_iter().chain(outside) {
        look_up(rt, table, scene, 255, at, len)?;
    }
    Ok(())
}

pub fn look_ups(rt: &impl Print) -> io::Result<()> {
    // urn:a is class 1, urn:bc class 2; the rule is that of T.
    let table = b"\x02\x02\x01\x01\x00\x06\x00\x08\x05urn:a\x06urn:bc";
    let scene = b"<r xmlns=\"urn:a\"><x xmlns=\"q:r\"/></r>";
    print_heading(rt, b"URIs")?;
    by_class(rt, table, scene)?;
    by_span(rt, table, scene)?;
    print_heading(rt, b"URIs, with a table that is one byte short")?;
    let short = b"\x02\x02\x01\x01\x00\x06\x00\x08\x05urn:a\x06urn:b";
    look_up(rt, short, scene, 1, 0, 0)?;
    look_up(rt, short, scene, 255, 27, 3)
}
