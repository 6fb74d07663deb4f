// Prints what the reader sees of scene.xml: a line for each event and for each attribute, then the last number and place.
#![tactic(auto)]

mod start;
mod walk;

use printing::files::read_file;
use std::io;
use std::rt::Files;

// What the reader sees of the scene.
fn show(rt: &(impl Files + Print + Eprint), buffer: &mut [u8]) -> io::Result<()> {
    match read_file(rt, b"scene.xml", buffer) {
        Some(scene) => walk::print_events(rt, scene),
        None => Ok(()),
    }
}

fn main(rt: HostRuntime) -> io::Result<()> {
    let mut buffer = [0u8; 65536];
    show(&rt, &mut buffer)
}
