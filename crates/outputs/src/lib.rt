// The skim tool's output, standard output or a file that is named: `names` has the latter; here is the head of a WAVE
// file, whose sizes are set at the end.
#![tactic(auto)]

pub mod names;

ghost use Rattle.std.specs.Prelude.{◌≡◌, ◌≤◌, IfSome};
ghost use Rattle.outputs.specs.declared.SizesError.TheVariants.{Unset};
ghost use Rattle.outputs.specs.Tracks.{most_bytes, track_bytes};

use plans::Opening;
use ports::Outgoing;
use ports::standing::Stream;
use std::fs::{OpenFile, OpenOptions};
use std::io::{Error, ErrorKind, IsTerminal, Seek, SeekFrom, Stdout, Write};
use std::os::unix::fs::FileTypeExt;
use std::rt::Files;
use std::{fs, io};

// The size that sox writes where it cannot know another, as to a pipe.
const UNKNOWN: u32 = 0x7fff_f000;

// Why the sizes are not set: what the system says, `NotSeekable` of a pipe and of a file that appends; or the track is
// longer than they can tell.
#[derive(Clone, Copy, Debug)]
pub enum SizesError {
    Unset(Error),
    TooLong,
}

impl From<Error> for SizesError {
    ghost from_gives = { λ error sizes. sizes ≡ Unset error };

    fn from(error: Error) -> SizesError {
        SizesError::Unset(error)
    }
}

// The bytes of a track, if the sizes of a WAVE file can tell them.
fn track_bytes(frames: u64, opening: Opening) -> Option<u32>
    ensures exact { result ≡ track_bytes opening.channels frames }
    ensures told { IfSome result (λ bytes. bytes ≤ most_bytes) }
{
    let frame = 2 * (opening.channels as u64);
    let bytes = frames.checked_mul(frame)?;
    if bytes > chunks::MOST_BYTES as u64 {
        return None;
    }
    Some(bytes as u32)
}

// What is said of a file that cannot be sought.
fn unsought() -> Error {
    Error::from(ErrorKind::NotSeekable)
}

// Where standard output stands, if it is of a kind that can be sought, and does not append.
fn standard_place(files: &impl Files, stdout: &Stdout) -> io::Result<u64> {
    let kind = fs::metadata(files, Stream::Output.name())?.file_type();
    let is_device = kind.is_char_device() && !stdout.is_terminal();
    if !kind.is_file() && !is_device {
        return Err(unsought());
    }
    match Stream::Output.place(files) {
        Some(place) if !place.appends => Ok(place.at),
        _ => Err(unsought()),
    }
}

// Where the output stands, if it can be sought.
pub fn place(files: &impl Files, output: &mut Outgoing) -> io::Result<u64> {
    match output {
        Outgoing::Standard(stdout) => standard_place(files, stdout),
        Outgoing::Named(file) => file.seek(SeekFrom::Current(0)),
        Outgoing::Closed => Err(unsought()),
    }
}

// Writes the head of a track whose length is not known yet.
pub fn write_head<W: Write>(to: &mut W, opening: Opening) -> io::Result<()> {
    let mut head = [0u8; chunks::HEAD_BYTES];
    chunks::put_head(
        &mut head,
        opening.rate as u32,
        opening.channels as u32,
        UNKNOWN,
    );
    to.write_all(&head)
}

// The bytes of a file, or 0 if that is not known. No Option: where it is set again, and where it is compared, 0 would
// stand for None.
fn length<F: OpenFile>(file: &F) -> u64 {
    file.metadata().map_or(0, |told| told.len())
}

// Writes a head at a place of a file.
fn put_at<F: Write + Seek>(file: &mut F, head: &[u8], place: u64) -> io::Result<()> {
    file.seek(SeekFrom::Start(place))?;
    file.write_all(head)
}

// Sets the sizes in a head that was written at this place of a file. What is written to a file that appends goes to its
// end: that is taken away again.
fn set_sizes<F: Write + Seek + OpenFile>(file: &mut F, head: &[u8], place: u64) -> io::Result<()> {
    let end = length(file);
    put_at(file, head, place)?;
    if length(file) != end {
        let _ = file.set_len(end);
        return Err(unsought());
    }
    Ok(())
}

// The same in the file of standard output, which is opened anew for that.
fn set_standard_sizes(files: &impl Files, head: &[u8], place: u64) -> io::Result<()> {
    let mut file = OpenOptions::new()
        .write(true)
        .open(files, Stream::Output.name())?;
    set_sizes(&mut file, head, place)
}

// Sets the sizes of a track of so many frames, whose head was written at this place, if that is known.
pub fn end(
    files: &impl Files,
    output: &mut Outgoing,
    frames: u64,
    place: io::Result<u64>,
    opening: Opening,
) -> Result<(), SizesError> {
    let size = track_bytes(frames, opening).ok_or(SizesError::TooLong)?;
    let at = place?;
    let mut head = [0u8; chunks::HEAD_BYTES];
    chunks::put_head(
        &mut head,
        opening.rate as u32,
        opening.channels as u32,
        size,
    );
    match output {
        Outgoing::Standard(_) => set_standard_sizes(files, &head, at)?,
        Outgoing::Named(file) => set_sizes(file, &head, at)?,
        Outgoing::Closed => return Err(SizesError::Unset(unsought())),
    }
    Ok(())
}
