// A file by its name, read into a lent buffer.
ghost use Rattle.std.specs.Prelude.{IfOk, IfSome};
ghost use Rattle.std.specs.Io.{ReadsAtMost};
ghost use Rattle.printing.specs.Files.{Within};

use std::error::Error;
use std::io::Read;
use std::rt::Files;
use std::{fmt, fs, io};

// Why a file could not be read whole.
#[derive(Debug, Drop)]
enum LoadError {
    Unread(io::Error),
    // The file has more bytes than the buffer, which has so many.
    Longer(usize),
}

impl fmt::Display for LoadError {
    fn fmt<W: fmt::Write>(&self, f: &mut fmt::Formatter<W>) -> fmt::Result {
        match self {
            LoadError::Unread(e) => write!(f, "{e}"),
            LoadError::Longer(most) => write!(f, "longer than {most} bytes"),
        }
    }
}

impl Error for LoadError {}

impl From<io::Error> for LoadError {
    fn from(e: io::Error) -> LoadError {
        LoadError::Unread(e)
    }
}

// Reads until the buffer is full or the file ends: how many bytes stand at the buffer's start.
fn fill(file: &mut impl Read, buffer: &mut [u8]) -> io::Result<usize>
    ensures { ReadsAtMost result buffer.new }
{
    let mut done = 0;
    while done < buffer.len() {
        let n = file.read(&mut buffer[done..])?;
        if n == 0 {
            break;
        }
        done += n;
    }
    Ok(done)
}

// The whole file: the buffer's first bytes.
fn load<'a>(rt: &impl Files, name: &str, buffer: &'a mut [u8]) -> Result<&'a [u8], LoadError>
    ensures { IfOk result (λ bytes. Within bytes buffer.entry) }
{
    let mut file = fs::open(rt, name)?;
    let n = fill(&mut file, buffer)?;
    if file.read(&mut [0u8; 1])? > 0 {
        return Err(LoadError::Longer(buffer.len()));
    }
    Ok(&buffer[..n])
}

// The file of this name; where it cannot be read whole, a message names it.
fn read_named<'a>(rt: &(impl Files + Eprint), name: &str, buffer: &'a mut [u8]) -> Option<&'a [u8]>
    ensures { IfSome result (λ bytes. Within bytes buffer.entry) }
{
    match load(rt, name, buffer) {
        Ok(bytes) => Some(bytes),
        Err(e) => {
            let _ = eprintln!(rt; "{name}: {e}");
            None
        }
    }
}

// The file from the buffer's first byte on. One that the buffer cannot hold is refused; so is one whose name is not UTF-8, which std cannot open.
pub fn read_file<'a>(
    rt: &(impl Files + Eprint),
    name: &[u8],
    buffer: &'a mut [u8],
) -> Option<&'a [u8]>
    ensures { IfSome result (λ bytes. Within bytes buffer.entry) }
{
    match str::from_utf8(name) {
        Ok(name) => read_named(rt, name, buffer),
        Err(_) => {
            let _ = eprintln!(rt; "a file's name is not UTF-8");
            None
        }
    }
}
