// The chunks of a RIFF/WAVE file of 16-bit PCM: its head, one chunk of it at a time, and the head of a file that is
// written. A file need not be at hand as a whole: `specs/` says what is answered.
#![tactic(auto)]

mod formats;
mod head;
mod ids;
mod numbers;

ghost use Rattle.std.specs.Prelude.{◌≡◌, ◌+◌, ◌^◌, ◌≤◌, ◌<◌, min, length};
ghost use Rattle.chunks.specs.Chunks.{chunk_head, is_wave, sized_chunk, chunk_of};

use formats::format_after;
pub use formats::is_read;
pub use head::{HEAD_BYTES, MOST_BYTES, put_head};
pub use ids::RIFF;
use ids::{DATA, WAVE};
pub use numbers::{put, u32_at};
use stream::Refusal;

// The bytes of a file's head, and those of a chunk that are looked at: its head, and 16 of a fmt chunk.
pub const FILE_HEAD: usize = 12;

pub const LOOKED_AT: usize = 24;

// What a fmt chunk says of the samples. The first one of 16 bytes or more is the one used.
#[derive(Clone, Copy, Debug, PartialEq, Eq)]
pub struct Format {
    pub tag: u32,
    pub channels: u32,
    pub rate: u32,
    pub bits: u32,
}

// What follows at the rest of a file: another chunk, with the bytes that it takes and the format known behind it; or
// the head of the data chunk, with the bytes of the samples behind it and their format, which is read.
#[derive(Clone, Copy, Debug, PartialEq, Eq)]
pub enum Chunk {
    Other(usize, Option<Format>),
    Data(usize, Format),
}

// Whether a chunk is the data chunk, and its size, which either kind has.
#[derive(Clone, Copy)]
pub struct ChunkHead {
    pub is_data: bool,
    pub size: usize,
}

// The head of a chunk.
pub fn head_of(chunk: &[u8]) -> ChunkHead
    requires { 8 ≤ length chunk.now }
    ensures { result ≡ chunk_head chunk.now }
{
    ChunkHead {
        is_data: chunk.starts_with(&DATA),
        size: u32_at(chunk, 4) as usize,
    }
}

// Whether a file begins as a WAVE file does.
#[tactic(auto, unfolding(crate::specs::Chunks::is_wave))]
pub fn is_wave(bytes: &[u8]) -> bool
    ensures { result ≡ is_wave bytes.now }
{
    bytes.len() >= FILE_HEAD && bytes.starts_with(&RIFF) && bytes[8..].starts_with(&WAVE)
}

// A chunk of this size, behind whose head the file has `room` bytes. A data chunk needs no padding.
#[tactic(auto, unfolding(crate::specs::Chunks::sized_chunk, crate::specs::Chunks::data_of))]
fn sized_chunk(
    rest: &[u8],
    size: usize,
    room: usize,
    format: Option<Format>,
) -> Result<Chunk, Refusal>
    requires { (8 ≤ length rest.now) × (min 24 (8 + room) ≤ length rest.now) × (size < 2 ^ 32) }
    ensures { result ≡ sized_chunk rest.now size room format }
{
    if rest.starts_with(&DATA) {
        if size > room {
            return Err(Refusal::BadSize);
        }
        return match format {
            Some(format) if is_read(format) => Ok(Chunk::Data(size, format)),
            _ => Err(Refusal::BadFormat),
        };
    }
    let padded = size + size % 2;
    if padded > room {
        return Err(Refusal::BadSize);
    }
    Ok(Chunk::Other(8 + padded, format_after(rest, size, format)))
}

// The next chunk: `rest` has the first bytes of those that are left of the file, all or at least 24.
#[tactic(auto, unfolding(crate::specs::Chunks::chunk_of))]
pub fn read_chunk(rest: &[u8], left: usize, format: Option<Format>) -> Result<Chunk, Refusal>
    requires { min 24 left ≤ length rest.now }
    ensures { result ≡ chunk_of rest.now left format }
{
    match left {
        0 => Err(Refusal::BadFormat),
        1..8 => Err(Refusal::BadSize),
        _ => sized_chunk(rest, u32_at(rest, 4) as usize, left - 8, format),
    }
}
