// What a fmt chunk says of the samples.
ghost use Rattle.std.specs.Prelude.{◌≡◌, ◌≤◌, length};
ghost use Rattle.chunks.specs.Chunks.{format_in, format_after, is_read};

use crate::Format;
use crate::ids::FMT;
use crate::numbers::{u16_at, u32_at};

// The least size of a fmt chunk that is used, the tag of PCM, and the bits of a sample that are read.
const LEAST_SIZE: usize = 16;

const PCM: u32 = 1;

const BITS: u32 = 16;

// That of a fmt chunk. The byte rate and the block size, in between, are not read.
fn format_in(chunk: &[u8]) -> Format
    requires { 24 ≤ length chunk.now }
    ensures { result ≡ format_in chunk.now }
{
    Format {
        tag: u32::from(u16_at(chunk, 8)),
        channels: u32::from(u16_at(chunk, 10)),
        rate: u32_at(chunk, 12),
        bits: u32::from(u16_at(chunk, 22)),
    }
}

// The format known behind a chunk of this size.
#[tactic(auto, unfolding(crate::specs::Chunks::format_after))]
pub(crate) fn format_after(chunk: &[u8], size: usize, format: Option<Format>) -> Option<Format>
    requires { (8 ≤ length chunk.now) × (16 ≤ size → 24 ≤ length chunk.now) }
    ensures { result ≡ format_after chunk.now size format }
{
    if format.is_none() && chunk.starts_with(&FMT) && size >= LEAST_SIZE {
        Some(format_in(chunk))
    } else {
        format
    }
}

// Whether samples of this format are read.
#[tactic(auto, unfolding(crate::specs::Chunks::is_read))]
pub fn is_read(format: Format) -> bool
    ensures { result ≡ is_read format }
{
    format.tag == PCM
        && format.bits == BITS
        && !stream::rate_bad(format.rate)
        && !stream::channels_bad(format.channels)
}
