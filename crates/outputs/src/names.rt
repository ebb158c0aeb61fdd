// A file that is named: it is written beside its name, and gets it when it is whole. `process` is the number of this
// process.
ghost use Rattle.std.specs.Prelude.{◌≡◌, ◌≤◌, length, IfOk};
ghost use Rattle.outputs.specs.declared.names.MadeError.TheVariants.{Failed};

use ports::naming;
use std::fs::{OpenFile, OpenOptions};
use std::io::{Cursor, Error, ErrorKind, Write};
use std::rt::Files;
use std::{fs, io, str};

// Why a file was not made: the system says why, or its name is that of something else than a file.
#[derive(Clone, Copy, Debug)]
pub enum MadeError {
    Failed(Error),
    Special,
}

impl From<Error> for MadeError {
    ghost from_gives = { λ error made. made ≡ Failed error };

    fn from(error: Error) -> MadeError {
        MadeError::Failed(error)
    }
}

// Whether a name is that of a file, or of nothing yet, and not of a device or a pipe.
fn free(files: &impl Files, name: &str) -> io::Result<bool> {
    match OpenOptions::new().read(true).write(true).open(files, name) {
        Ok(file) => Ok(file.metadata()?.is_file()),
        Err(e) if e.kind() == ErrorKind::NotFound => Ok(true),
        Err(e) => Err(e),
    }
}

// The name that is used meanwhile, NAME.PID.part. What was written is taken by its position: std's Cursor gives no
// slice of it, and the contract of `write!` does not say that the position stays within the buffer.
fn part_of<'a>(name: &str, process: u32, part: &'a mut [u8]) -> io::Result<&'a str>
    ensures { IfOk result (λ text. length text.now ≤ length part.old) }
{
    let most = part.len();
    let mut text = Cursor::new(part);
    if write!(text, "{name}.{process}.part").is_err() {
        return Err(Error::from_raw_os_error(naming::TOO_LONG));
    }
    let end = (text.position() as usize).min(most);
    let bytes = text.into_inner().get(..end).unwrap_or(b"");
    str::from_utf8(bytes).map_err(|_| Error::from(ErrorKind::InvalidFilename))
}

// Makes the file that is used meanwhile, at a descriptor above those of the standard streams, of which some may be
// closed.
fn create<R: Files>(files: &R, process: u32, name: &str) -> io::Result<R::File> {
    let mut part = [0u8; naming::MOST];
    let text = part_of(name, process, &mut part)?;
    let made = OpenOptions::new()
        .write(true)
        .create_new(true)
        .open(files, text)?;
    made.try_clone().inspect_err(|_| {
        let _ = fs::remove_file(files, text);
    })
}

// Makes the file of this name.
pub fn open<R: Files>(files: &R, process: u32, name: &str) -> Result<R::File, MadeError> {
    if !free(files, name)? {
        return Err(MadeError::Special);
    }
    Ok(create(files, process, name)?)
}

// Gives a whole file its name.
pub fn keep<F: OpenFile>(files: &impl Files, process: u32, file: &F, name: &str) -> io::Result<()> {
    let mut part = [0u8; naming::MOST];
    let text = part_of(name, process, &mut part)?;
    file.sync_all()?;
    fs::rename(files, text, name)
}

// Removes a file that is not kept.
pub fn discard(files: &impl Files, process: u32, name: &str) {
    let mut part = [0u8; naming::MOST];
    if let Ok(text) = part_of(name, process, &mut part) {
        let _ = fs::remove_file(files, text);
    }
}
