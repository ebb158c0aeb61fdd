// The skim tool's input: what is known of it, and blocks of it. `specs/Sources.antt` says which bytes are read.
#![tactic(auto)]

ghost use Rattle.std.specs.Prelude.{◌≡◌, ◌+◌, ◌≤◌, min, length, take};
ghost use Rattle.inputs.specs.Sources.{raw_source, wave_source, is_wave, size_of, left_of, first_of, ready_of};
ghost use Rattle.inputs.specs.Sources.{block_of, source_after, Begins};

use std::io::Read;

// What the input is. The first bytes of raw PCM, up to four, are read to see what it is: `first` is their number, the
// lowest byte first, and `ready` how many stand before what is read next. Of a WAVE file `size` is the size of its data
// chunk, and `left` are the bytes of it that were not read yet. `first` is a number and `ready` a count, and no slice:
// a source is copied with its reel.
#[derive(Clone, Copy, Debug, PartialEq, Eq)]
pub enum Source {
    Raw { first: u32, ready: usize },
    Wave { size: u64, left: u64 },
}

impl Source {
    // Raw PCM of which nothing was read.
    pub const RAW: Source = Source::Raw { first: 0, ready: 0 };

    // Raw PCM of which these bytes were read.
    pub fn begun(first: u32, ready: usize) -> Source
        ensures { result ≡ raw_source first ready }
    {
        Source::Raw { first, ready }
    }

    // A WAVE file whose samples come next.
    pub fn of_wave(size: u64) -> Source
        ensures { result ≡ wave_source size }
    {
        Source::Wave { size, left: size }
    }

    // Whether it is a WAVE file.
    pub fn is_wave(self) -> bool
        ensures { result ≡ is_wave self }
    {
        matches!(self, Source::Wave { .. })
    }

    // The size of the data chunk of a WAVE file, 0 of raw PCM. 0 of raw PCM, and no Option here and below: each caller
    // would take None for 0.
    pub fn size(self) -> u64
        ensures { result ≡ size_of self }
    {
        match self {
            Source::Raw { .. } => 0,
            Source::Wave { size, .. } => size,
        }
    }

    // The bytes of that which were not read yet, 0 of raw PCM.
    pub fn left(self) -> u64
        ensures { result ≡ left_of self }
    {
        match self {
            Source::Raw { .. } => 0,
            Source::Wave { left, .. } => left,
        }
    }

    // The number of the first bytes of raw PCM, 0 of a WAVE file.
    pub fn first(self) -> u32
        ensures { result ≡ first_of self }
    {
        match self {
            Source::Raw { first, .. } => first,
            Source::Wave { .. } => 0,
        }
    }

    // How many of them stand before what is read next, 0 of a WAVE file.
    pub fn ready(self) -> usize
        ensures { result ≡ ready_of self }
    {
        match self {
            Source::Raw { ready, .. } => ready,
            Source::Wave { .. } => 0,
        }
    }

    // The bytes of a block that are read: `most`, or what is left of a WAVE file.
    pub fn block(self, most: usize) -> usize
        ensures { result ≡ block_of self most }
    {
        match self {
            Source::Raw { .. } => most,
            Source::Wave { left, .. } => (left as usize).min(most),
        }
    }

    // After a block of so many bytes.
    pub fn after(self, bytes: usize) -> Source
        ensures { result ≡ source_after bytes self }
    {
        match self {
            Source::Raw { first, .. } => Source::Raw { first, ready: 0 },
            Source::Wave { size, left } => Source::Wave {
                size,
                left: left.saturating_sub(bytes as u64),
            },
        }
    }
}

// What a block was filled with, and whether a read failed. No Result: the bytes that came before a read that failed are
// told too, and counted.
#[derive(Clone, Copy, Debug, PartialEq, Eq)]
pub struct BlockBytes {
    pub bytes: usize,
    pub failed: bool,
}

// Puts the bytes that stand ready at the front of the block, and answers how many. Behind the fourth they are zeros.
fn begin(block: &mut [u8], first: u32, ready: usize) -> usize
    ensures count { result ≡ min ready (length block.old) }
    ensures begins { Begins first result block.new }
{
    let most = ready.min(block.len());
    let bytes = first.to_le_bytes();
    let known = most.min(bytes.len());
    block[..most].fill(0);
    block[..known].copy_from_slice(&bytes[..known]);
    most
}

// Puts the bytes that stand ready at the front of the block, and reads until it is full, the input ends or a read
// fails. A `while`: how far a turn goes, the read says.
pub fn fill<R: Read>(reader: &mut R, block: &mut [u8], first: u32, ready: usize) -> BlockBytes
    ensures { (result.bytes ≤ length block.old) × (min ready (length block.old) ≤ result.bytes)
        × Begins first (min ready (length block.old)) block.new }
{
    let mut have = begin(block, first, ready);
    while have < block.len() {
        match reader.read(&mut block[have..]) {
            Ok(0) => break,
            Ok(bytes) => have += bytes,
            Err(_) => {
                return BlockBytes {
                    bytes: have,
                    failed: true,
                };
            }
        }
    }
    BlockBytes {
        bytes: have,
        failed: false,
    }
}
