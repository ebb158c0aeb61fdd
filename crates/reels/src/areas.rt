// What a run is lent: arrays of its caller.
use plans::{BLOCK_BYTES, BLOCK_SAMPLES, INPUT_AREA, SCRATCH_AREA};

// The four areas of the stream, of which a small job has a smaller stage and a smaller output. That the sizes are those
// of a plan (`AreSized`) stays a clause: the plan is handed on beside them.
#[derive(Drop)]
pub struct Areas<const STAGE: usize, const OUTPUT: usize> {
    pub input: [i16; INPUT_AREA],
    pub stage: [i16; STAGE],
    pub output: [i16; OUTPUT],
    pub scratch: [i16; SCRATCH_AREA],
}

// A block that is read, the values of frames that are written out, and the bytes of either. Apart from the areas:
// `drain` and `finish` take values and bytes of other lengths too.
#[derive(Drop)]
pub struct Buffers {
    pub block: [i16; BLOCK_SAMPLES],
    pub values: [f32; BLOCK_SAMPLES],
    pub bytes: [u8; BLOCK_BYTES],
}
