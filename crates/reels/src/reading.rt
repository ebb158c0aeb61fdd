// Blocks of the input.
ghost use Rattle.std.specs.Prelude.{◌≡◌, ◌≤◌, length};
ghost use Rattle.pcm.specs.Pcm.{Decoded};
ghost use Rattle.plans.specs.Plans.{block_samples};
ghost use Rattle.reels.specs.Reels.{BlockCounted, BlockReadAs};

use crate::reel::Reel;
use crate::state::RunState;
use frames::Frames;
use inputs::{BlockBytes, fill};
use plans::{BLOCK_BYTES, BLOCK_SAMPLES, Plan};
use std::io::Read;

// A reel with a block read, and the block's samples. A count beside the block: that stays the caller's array, and a
// reel holds no slice.
#[derive(Clone, Copy)]
pub struct BlockRead {
    pub reel: Reel,
    pub samples: usize,
}

// Counts the frames of a block. One that is not full is the last, and no other leaves bytes over. That no bytes were
// over stays a clause: a reel whose input has ended may have some.
fn count(reel: Reel, filled: BlockBytes, plan: Plan) -> Reel
    requires { reel.partial ≡ 0 }
    ensures { BlockCounted plan reel filled result }
{
    let frame = 2 * plan.channels;
    let counted = Reel {
        frames_in: reel.frames_in.wrapping_add((filled.bytes / frame) as u64),
        source: reel.source.after(filled.bytes),
        partial: filled.bytes % frame,
        ended: filled.bytes < 2 * plan.block,
        ..reel
    };
    if filled.failed {
        counted.stopped(RunState::ReadFailed)
    } else {
        counted
    }
}

// Reads a block. Of a WAVE file no more is read than its data chunk has.
pub fn read_block<R: Read>(
    reader: &mut R,
    reel: Reel,
    plan: Plan,
    block: &mut [i16; BLOCK_SAMPLES],
    bytes: &mut [u8; BLOCK_BYTES],
) -> BlockRead
    requires { reel.partial ≡ 0 }
    ensures { (result.samples ≤ block_samples) × (length block.new ≡ block_samples)
        × BlockReadAs plan reel bytes.new result × Decoded result.samples bytes.new block.new }
{
    let channels = plan.channels;
    let source = reel.source;
    let size = source.block(2 * plan.block);
    let filled = fill(reader, &mut bytes[..size], source.first(), source.ready());
    let samples = Frames(filled.bytes / (2 * channels)).samples(channels).0;
    pcm::decode(bytes, samples, block);
    BlockRead {
        reel: count(reel, filled, plan),
        samples,
    }
}
