// Runs samples D and E and those that are only run, and looks URIs up; prints what they give, each under a heading.
#![tactic(auto)]

mod lookups;
mod scenes;
mod step_samples;

ghost use Rattle.std.specs.Prelude.{◌≤◌, length};

use crate::lookups::look_ups;
use crate::scenes::nested;
use crate::step_samples::{cut_at_every_byte, first_step};
use dispatcher::run;
use printing::lines::{print_answer, print_heading, print_records};
use std::io;

fn print_run(
    rt: &impl Print,
    heading: &str,
    table: &[u8],
    scene: &[u8],
    out: &mut [u8],
) -> io::Result<()> {
    print_heading(rt, heading.as_bytes())?;
    let answer = run(table, scene, out);
    print_records(rt, out, answer.records)?;
    print_answer(rt, answer)
}

// A root of u with so many elements of its own namespace, each inside the one before.
fn deep(
    rt: &impl Print,
    heading: &str,
    table: &[u8],
    inner: usize,
    scene: &mut [u8],
    out: &mut [u8],
) -> io::Result<()> {
    let scene = nested(scene, inner, b"<x>", b"", b"</x>");
    print_run(rt, heading, table, scene, out)
}

// Elements of v and q alternating under a root of u, an element of v innermost; so many of q.
fn alternating(
    rt: &impl Print,
    heading: &str,
    table: &[u8],
    pairs: usize,
    scene: &mut [u8],
    out: &mut [u8],
) -> io::Result<()> {
    let open = b"<x xmlns=\"v\"><w xmlns=\"q\">";
    let scene = nested(scene, pairs, open, b"<x xmlns=\"v\"/>", b"</w></x>");
    print_run(rt, heading, table, scene, out)
}

// A scene whole, and cut at every byte.
fn whole_and_cut(rt: &impl Print, table: &[u8], scene: &[u8], out: &mut [u8]) -> io::Result<()>
    requires { (length scene.now ≤ 65536) × (length out.old ≤ 65536) }
{
    print_run(rt, "E", table, scene, out)?;
    print_heading(rt, b"E cut at every byte")?;
    cut_at_every_byte(rt, table, scene, out)
}

fn runs(rt: &impl Print, t: &[u8], t2: &[u8], scene: &mut [u8], out: &mut [u8]) -> io::Result<()> {
    deep(rt, "depth 64", t, 63, scene, out)?;
    deep(rt, "depth 65", t, 64, scene, out)?;
    alternating(rt, "fourth v", t2, 3, scene, out)?;
    alternating(rt, "fifth v", t2, 4, scene, out)
}

// A scene's start, whose two records have room in 32 bytes.
fn starts(rt: &impl Print, table: &[u8], scene: &[u8]) -> io::Result<()> {
    let mut small = [0u8; 31];
    let mut enough = [0u8; 32];
    print_heading(rt, b"31 bytes")?;
    first_step(rt, table, scene, &mut small)?;
    print_heading(rt, b"32 bytes")?;
    first_step(rt, table, scene, &mut enough)
}

fn main(rt: HostRuntime) -> io::Result<()> {
    // u is class 1: mode 0 element 1 validate 0, next mode 1.
    let t = b"\x01\x02\x01\x01\x00\x06\x00\x08\x01u";
    // u is class 1, v class 2: mode 0 element 1 validate 0; mode 1 element 2 validate 1; the same attach; mode 1 any element unwrap; next mode 1 throughout.
    let t2 =
        b"\x02\x02\x02\x04\x00\x06\x00\x08\x08\x0a\x01\x08\x08\x08\x00\x08\x0b\xfd\x00\x08\x01u\x01v";
    let a = b"<r xmlns=\"u\">a<x/></r>";
    let d = b"<r xmlns=\"u\"><x xmlns=\"v\"/></r>";
    let e = b"<r xmlns=\"u\">a<w xmlns=\"q\">b<x xmlns=\"v\"/></w>c</r>";
    let mut scene = [0u8; 4096];
    let mut out = [0u8; 65536];
    print_run(&rt, "D", t2, d, &mut out)?;
    whole_and_cut(&rt, t2, e, &mut out)?;
    runs(&rt, t, t2, &mut scene, &mut out)?;
    starts(&rt, t, a)?;
    look_ups(&rt)
}
