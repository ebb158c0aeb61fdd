// Where a stream stands in its file, and how that was opened, which std does not say: /proc/self/fdinfo tells it, in a
// text that begins with a line of the position, in decimal, and a line of flags, in octal.
ghost use Rattle.std.specs.Prelude.{◌≡◌};
ghost use Rattle.ports.specs.Streams.{name_of};

use std::io::Read;
use std::rt::Files;
use std::{fs, str};

// The bytes that are looked at.
const LOOKED_AT: usize = 128;

// The flags below this tell the access: 0 to read, 1 to write, 2 both.
const ACCESS: u64 = 4;

// The flag of a file that appends.
const APPENDS: u64 = 0o2000;

#[derive(Clone, Copy, Debug, PartialEq, Eq)]
pub struct Place {
    pub at: u64,
    pub writes: bool,
    pub appends: bool,
}

// Standard input, standard output, or the descriptor of the status.
#[derive(Clone, Copy, Debug, PartialEq, Eq)]
pub enum Stream {
    Input,
    Output,
    Status,
}

// What stands behind a word in one of the lines.
fn behind<'a>(text: &'a str, word: &str) -> Option<&'a str> {
    for line in text.lines() {
        if let Some(rest) = line.strip_prefix(word) {
            return Some(rest.trim());
        }
    }
    None
}

// Where a stream stands, as the file of this name tells.
fn told_in(files: &impl Files, path: &str) -> Option<Place> {
    let mut bytes = [0u8; LOOKED_AT];
    let mut file = fs::open(files, path).ok()?;
    let n = file.read(&mut bytes).ok()?;
    let text = str::from_utf8(&bytes[..n]).ok()?;
    let at = behind(text, "pos:")?.parse::<u64>().ok()?;
    let flags = u64::from_str_radix(behind(text, "flags:")?, 8).ok()?;
    let access = flags % ACCESS;
    Some(Place {
        at,
        writes: access == 1 || access == 2,
        appends: flags / APPENDS % 2 == 1,
    })
}

impl Stream {
    // Its name, which opens its file anew. A text for each: none is put together without a buffer.
    pub fn name(self) -> &'static str
        ensures { result.now ≡ name_of self }
    {
        match self {
            Stream::Input => "/proc/self/fd/0",
            Stream::Output => "/proc/self/fd/1",
            Stream::Status => "/proc/self/fd/3",
        }
    }

    // Where it stands, if that is known.
    pub fn place(self, files: &impl Files) -> Option<Place> {
        let told = match self {
            Stream::Input => "/proc/self/fdinfo/0",
            Stream::Output => "/proc/self/fdinfo/1",
            Stream::Status => "/proc/self/fdinfo/3",
        };
        told_in(files, told)
    }
}
