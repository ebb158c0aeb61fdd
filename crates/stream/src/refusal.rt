// The refusals, and the answers that carry one. `specs/Refusals.antt` says when each is met.
ghost use Rattle.std.specs.Prelude.{◌≡◌};
ghost use Rattle.stream.specs.Refusals.{number_of};

use crate::SonicStream;
use std::fmt;

// In the order in which they are tested, each with its number.
#[derive(Clone, Copy, Debug, PartialEq, Eq)]
pub enum Refusal {
    // Opening: the rate, or the channels, out of range.
    BadRate = 1,
    BadChannels = 2,
    // The stream value is not in order.
    BadStream = 3,
    // An area is too long, or shorter than what it holds, or the scratch is too short.
    BadAreas = 4,
    // The frames do not fit the input, the stage or the output.
    InputFull = 5,
    StageFull = 6,
    OutputFull = 7,
    // Of a WAVE file: it has no RIFF and WAVE at its head; a chunk ends past it, or the samples do not fit the file or
    // the destination; it has no samples of a format that is read.
    NotWave = 8,
    BadSize = 9,
    BadFormat = 10,
    // A total of the balance would pass 64 bits.
    TotalFull = 12,
}

// A refusal of a call on a stream, with the entering stream.
#[derive(Clone, Copy)]
pub struct Refused {
    pub refusal: Refusal,
    pub stream: SonicStream,
}

// A refusal of an opening, with the rate or the channels given, and a stream with every field 0.
#[derive(Clone, Copy)]
pub struct NotOpened {
    pub refusal: Refusal,
    pub given: u32,
    pub stream: SonicStream,
}

impl Refusal {
    // The number that stands for no refusal.
    pub const ACCEPTED: u32 = 0;
}

impl From<Refusal> for u32 {
    ghost from_gives = { λ refusal number. number ≡ number_of refusal };

    fn from(refusal: Refusal) -> u32 {
        refusal as u32
    }
}

// What the refusal means.
impl fmt::Display for Refusal {
    fn fmt<W: fmt::Write>(&self, f: &mut fmt::Formatter<W>) -> fmt::Result {
        f.write_str(match self {
            Refusal::BadRate => "the rate is out of range",
            Refusal::BadChannels => "the channels are out of range",
            Refusal::BadStream => "the stream is not in order",
            Refusal::BadAreas => "an area is too short for what the stream holds",
            Refusal::InputFull => "the input area is full",
            Refusal::StageFull => "the stage area is full",
            Refusal::OutputFull => "the output area is full",
            Refusal::NotWave => "the file does not begin with RIFF and WAVE",
            Refusal::BadSize => "a chunk of the WAVE file ends past the file",
            Refusal::BadFormat => {
                "the WAVE file has no samples that are read: 16-bit PCM, 1000 to 500000 Hz, 1 to 32 channels"
            }
            Refusal::TotalFull => "a total of frames skipped or inserted would pass 64 bits",
        })
    }
}
