// The stream for C: each function calls `stream` or `sonic` and hands its answer over as a struct. The crate
// `kelpladder_c` exports them, and include/kelpladder.h has the declarations; `specs/Answers.antt` says what numbers
// stand for an answer. The stream is `SonicStream` itself. `waves` has the calls for WAVE files.
#![tactic(auto)]

mod answers;
pub mod calls;
pub mod waves;

use frames::Frames;
use stream::SonicStream;

// An opening: the number of its refusal, 0 if accepted, and the rate or channels that were refused.
#[repr(C)]
#[derive(Clone, Copy)]
pub struct Opened {
    pub refusal: u32,
    pub given: u32,
    pub stream: SonicStream,
}

// A setting.
#[repr(C)]
#[derive(Clone, Copy)]
pub struct Changed {
    pub refusal: u32,
    pub stream: SonicStream,
}

// The frames waiting.
#[repr(C)]
#[derive(Clone, Copy)]
pub struct Available {
    pub refusal: u32,
    pub frames: Frames,
    pub stream: SonicStream,
}

// What is told of an accepted write or flush: the number of its outcome, the periods passed over, and the sum of the
// last search.
#[repr(C)]
#[derive(Clone, Copy)]
pub struct Told {
    pub outcome: u32,
    pub passed: usize,
    pub sum: usize,
}

// A write or a flush.
#[repr(C)]
#[derive(Clone, Copy)]
pub struct Wrote {
    pub refusal: u32,
    pub told: Told,
    pub stream: SonicStream,
}

// A read: the frames given.
#[repr(C)]
#[derive(Clone, Copy)]
pub struct Gave {
    pub refusal: u32,
    pub frames: Frames,
    pub stream: SonicStream,
}
