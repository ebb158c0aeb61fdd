// What the skim tool's input begins with: raw PCM, or a WAVE file, whose chunks are walked up to its samples.
#![tactic(auto)]

ghost use Rattle.std.specs.Prelude.{◌≤◌, IfOk, length};
ghost use Rattle.heads.specs.Inputs.{Taken};

use chunks::{Chunk, ChunkHead, Format};
use inputs::{Source, fill};
use ports::standing::Stream;
use std::fs::OpenFile;
use std::io::{Read, Seek, SeekFrom};
use std::rt::Files;
use std::{fs, io};
use stream::Refusal;

// Raw PCM, or a WAVE file with samples of this format.
#[derive(Clone, Copy, Debug, PartialEq, Eq)]
pub enum Input {
    Raw(Source),
    Wave(Source, Format),
}

// An input that cannot be used: a WAVE file that is refused, with its format and the size of its data chunk, or 0, as
// far as they are known; or a read failed.
#[derive(Clone, Copy, Debug, PartialEq, Eq)]
pub enum BadInput {
    Refused(Refusal, Option<Format>, usize),
    Failed,
}

// The bytes of a chunk that are read and dropped at a time.
const SKIPPED: usize = 4096;

// The bytes that came of a chunk's head, if it is cut; those that are looked at behind it, and those of them that came;
// the size of a data chunk, or 0. `claimed` is 0, and no Option: of a data chunk of no bytes nothing is told either
// (`say_size`).
#[derive(Clone, Copy, Debug, PartialEq, Eq)]
struct Looked {
    cut: Option<usize>,
    behind: usize,
    came: usize,
    claimed: usize,
}

// The bytes from where an input stands to its end. One that ends where it stands is taken for one that cannot be
// sought. An `if`, as plain as `then`.
fn between(start: u64, end: u64) -> Option<usize> {
    if end <= start {
        return None;
    }
    Some((end - start) as usize)
}

// The bytes of a file that are left, if that is known. A place that cannot be asked for counts as the file's beginning.
pub fn file_left<S: Seek>(file: &mut S) -> Option<usize> {
    let start = file.seek(SeekFrom::Current(0)).unwrap_or(0);
    let end = file.seek(SeekFrom::End(0)).unwrap_or(0);
    let left = between(start, end)?;
    let back = file.seek(SeekFrom::Start(start)).unwrap_or(0);
    (back == start).then_some(left)
}

// The bytes of standard input that are left, if that is known.
pub fn input_left(files: &impl Files) -> Option<usize> {
    let start = Stream::Input.place(files)?.at;
    let end = fs::metadata(files, Stream::Input.name()).ok()?.len();
    between(start, end)
}

// The same with so many bytes fewer.
fn fewer(left: Option<usize>, count: usize) -> Option<usize> {
    left.map(|bytes| bytes.saturating_sub(count))
}

// Fills a block as far as the input goes, and answers how far.
fn filled<R: Read>(reader: &mut R, block: &mut [u8]) -> Result<usize, BadInput>
    ensures { IfOk result (λ bytes. bytes ≤ length block.old) }
{
    let got = fill(reader, block, 0, 0);
    if got.failed {
        return Err(BadInput::Failed);
    }
    Ok(got.bytes)
}

// Reads and drops so many bytes, or as many as come, and answers how many. A read that fails behind some bytes of a
// block is tried again. A `while`: how far a turn goes, the read says.
fn skip<R: Read>(reader: &mut R, count: usize, block: &mut [u8]) -> Result<usize, BadInput> {
    let mut done: usize = 0;
    while done < count {
        let most = block.len().min(count - done);
        let part = fill(reader, &mut block[..most], 0, 0);
        if part.bytes == 0 && part.failed {
            return Err(BadInput::Failed);
        }
        if part.bytes == 0 {
            break;
        }
        done += part.bytes;
    }
    Ok(done)
}

// The bytes behind a chunk's head that are looked at.
fn looked_at(chunk: ChunkHead) -> usize
    ensures { result ≤ 16 }
{
    if chunk.is_data { 0 } else { chunk.size.min(16) }
}

// Reads the head of a chunk, and of any but data up to 16 bytes behind it.
fn look<R: Read>(reader: &mut R, window: &mut [u8]) -> Result<Looked, BadInput>
    requires { 24 ≤ length window.old }
{
    let head = filled(reader, &mut window[..8])?;
    if head < 8 {
        return Ok(Looked {
            cut: Some(head),
            behind: 0,
            came: 0,
            claimed: 0,
        });
    }
    let chunk = chunks::head_of(window);
    let behind = looked_at(chunk);
    let came = filled(reader, &mut window[8..8 + behind])?;
    Ok(Looked {
        cut: None,
        behind,
        came,
        claimed: if chunk.is_data { chunk.size } else { 0 },
    })
}

// Walks from chunk to chunk. A chunk takes the bytes that came of a head that is cut, or those that are left at the
// most, if that is known. A proved loop has to end, and nothing says that the input does. Where the bytes left are not
// known they are as many as a number counts: every chunk fits.
fn walk<R: Read>(reader: &mut R, start: Option<usize>) -> Result<Input, BadInput>
    ensures { IfOk result Taken }
{
    let mut left = start;
    let mut format: Option<Format> = None;
    let mut block = [0u8; SKIPPED];
    for _ in 0..u64::MAX {
        let mut window = [0u8; chunks::LOOKED_AT];
        let looked = look(reader, &mut window)?;
        let room = looked.cut.or(left).unwrap_or(usize::MAX);
        let chunk = chunks::read_chunk(&window, room, format).map_err(|refusal| BadInput::Refused(
            refusal,
            format,
            looked.claimed,
        ))?;
        match chunk {
            Chunk::Data(size, read) => {
                return Ok(Input::Wave(Source::of_wave(size as u64), read));
            }
            Chunk::Other(count, next) => {
                let rest = count.saturating_sub(8).saturating_sub(looked.behind);
                let skipped = skip(reader, rest, &mut block)?;
                if looked.came < looked.behind || skipped < rest {
                    return Err(BadInput::Refused(Refusal::BadSize, next, 0));
                }
                left = fewer(left, count);
                format = next;
            }
        }
    }
    Err(BadInput::Failed)
}

// Opens the file of this name, at a descriptor above those of the standard streams, of which some may be closed.
pub fn open<R: Files>(files: &R, name: &str) -> io::Result<R::File> {
    fs::open(files, name)?.try_clone()
}

// What an input is of which so many bytes are left, if that is known: a WAVE file if it is named, or begins with RIFF.
pub fn begin<R: Read>(reader: &mut R, left: Option<usize>, named: bool) -> Result<Input, BadInput>
    ensures { IfOk result Taken }
{
    let mut head = [0u8; chunks::FILE_HEAD];
    let first = filled(reader, &mut head[..4])?;
    let is_riff = head.starts_with(&chunks::RIFF);
    if !named && !is_riff {
        return Ok(Input::Raw(Source::begun(chunks::u32_at(&head, 0), first)));
    }
    let others = filled(reader, &mut head[4..])?;
    if others < 8 || !chunks::is_wave(&head) {
        return Err(BadInput::Refused(Refusal::NotWave, None, 0));
    }
    walk(reader, fewer(left, chunks::FILE_HEAD))
}
