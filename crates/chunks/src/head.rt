// The head of a file that is written, in its three parts.
ghost use Rattle.std.specs.Prelude.{◌≡◌, ◌+◌, ◌^◌, ◌≤◌, ◌<◌, length};
ghost use Rattle.std.proofs.Math.Seq.{paste};
ghost use Rattle.chunks.specs.Head.{riff_part, format_part, data_part, head_of};

use crate::ids::{DATA, FMT, RIFF, WAVE};
use crate::numbers::put;

// The bytes of the head.
pub const HEAD_BYTES: usize = 44;

// The most bytes of samples: the size behind RIFF is 36 more and has 32 bits.
pub const MOST_BYTES: u32 = 0xffff_ffdb;

fn put_riff(dest: &mut [u8], size: u32)
    requires { (12 ≤ length dest.old) × (36 + size < 2 ^ 32) }
    ensures { dest.new ≡ paste dest.old 0 (riff_part size) 12 }
{
    put(dest, 0, RIFF);
    put(dest, 4, (36 + size).to_le_bytes());
    put(dest, 8, WAVE);
}

fn put_format(dest: &mut [u8], rate: u32, channels: u32)
    requires { (36 ≤ length dest.old) × (rate ≤ 500000) × (channels ≤ 32) }
    ensures { dest.new ≡ paste dest.old 12 (format_part rate channels) 24 }
{
    put(dest, 12, FMT);
    put(dest, 16, 16u32.to_le_bytes());
    put(dest, 20, 1u16.to_le_bytes());
    put(dest, 22, (channels as u16).to_le_bytes());
    put(dest, 24, rate.to_le_bytes());
    put(dest, 28, (2 * rate * channels).to_le_bytes());
    put(dest, 32, ((2 * channels) as u16).to_le_bytes());
    put(dest, 34, 16u16.to_le_bytes());
}

fn put_data(dest: &mut [u8], size: u32)
    requires { 44 ≤ length dest.old }
    ensures { dest.new ≡ paste dest.old 36 (data_part size) 8 }
{
    put(dest, 36, DATA);
    put(dest, 40, size.to_le_bytes());
}

// Puts the head of a file whose samples take `size` bytes at the front of the destination. The limits stay clauses:
// `plans::Opening`, which keeps them, stands above this crate.
pub fn put_head(dest: &mut [u8], rate: u32, channels: u32, size: u32)
    requires { (44 ≤ length dest.old) × (rate ≤ 500000) × (channels ≤ 32) × (36 + size < 2 ^ 32) }
    ensures { dest.new ≡ paste dest.old 0 (head_of rate channels size) 44 }
{
    put_riff(dest, size);
    put_format(dest, rate, channels);
    put_data(dest, size);
}
