// The first half of a call's work: copied or stretched frames, at pitch 1.0 into the output behind the frames waiting,
// at another into the stage behind the tail. The input stays.
#![tactic(auto)]

mod copies;
mod destination;
mod stretches;

ghost use Rattle.std.specs.Prelude.{◌≡◌, ◌^◌, ◌≤◌};
ghost use Rattle.frames.specs.Areas.{areas};
ghost use Rattle.floats.specs.Settings.{sample_period};
ghost use Rattle.stream.specs.Stream.{ChangedBy};
ghost use Rattle.stream.specs.Order.{StreamReady};
ghost use Rattle.fill.specs.Taking.{removed};
ghost use Rattle.fill.specs.Filling.{surplus, nothing_filled, FillReady, FillEnsures};

use copies::copy_input;
use frames::Frames;
use stream::{Balance, Refusal, SonicStream};
use stretches::stretch_input;

// How a call's work went. C has these numbers.
#[derive(Clone, Copy, Debug, PartialEq, Eq)]
pub enum Outcome {
    Empty = 0,
    Copied = 1,
    Waiting = 2,
    Stretched = 3,
    Stalled = 4,
}

// What is told of an accepted write or flush: its outcome, the periods that it passed over, and the sum of differences
// of the period that its last search found. That is 0, and no None, if it made none: `stretched` and C have it so.
#[derive(Clone, Copy, Debug, PartialEq, Eq)]
pub struct Told {
    pub outcome: Outcome,
    pub passed: usize,
    pub sum: usize,
}

// New frames in the area, frames of the input to be removed, what the call adds to the totals, the stream without
// these frames and with the totals before, and what is told.
#[derive(Clone, Copy)]
pub struct Filled {
    pub frames: Frames,
    pub used: Frames,
    pub balance: Balance,
    pub stream: SonicStream,
    pub told: Told,
}

// The stream without the first `used` frames of its input. That the sample period is that of the rate stays a clause: C
// hands any stream value over, so that `SonicStream` has no ghost field.
pub(crate) fn removed(stream: SonicStream, used: Frames) -> SonicStream
    requires { (used.0 ≤ stream.held.0) × (stream.held.0 ≤ 2 ^ 24)
        × (stream.sample_period ≡ sample_period stream.rate) }
    ensures { ChangedBy (removed used.0) stream stream.waiting.0 result }
{
    let left = Frames(stream.held.0 - used.0);
    SonicStream {
        input_play_time: floats::times::play_time_left(stream.input_play_time, left, stream.held),
        held: left,
        ..stream
    }
}

// The frames that a call skipped or inserted, by its frames out and used: frames out plus skipped are frames used plus
// inserted, and a call never does both.
pub(crate) fn balance_of(made: Frames, used: Frames) -> Balance
    ensures { result ≡ surplus made.0 used.0 }
{
    Balance {
        skipped: used.0.saturating_sub(made.0) as u64,
        inserted: made.0.saturating_sub(used.0) as u64,
    }
}

// No frames.
pub(crate) fn nothing(stream: SonicStream, outcome: Outcome) -> Filled
    ensures { result ≡ nothing_filled stream outcome }
{
    Filled {
        frames: Frames(0),
        used: Frames(0),
        balance: Balance::NONE,
        stream,
        told: Told {
            outcome,
            passed: 0,
            sum: 0,
        },
    }
}

// The frames of a call, before rate and volume: refused if there are more than there may be, which is told as a full
// stage, or if they do not fit the area, which is told as a full output. The stream is a plain one, of which the
// contract asks StreamReady: docs/CRATES.md hands this function to any caller.
pub fn fill_area(
    stream: SonicStream,
    input: &[i16],
    stage: &mut [i16],
    output: &mut [i16],
    scratch: &mut [i16],
) -> Result<Filled, Refusal>
    requires { StreamReady stream
        × FillReady stream (areas input.now stage.old output.old scratch.old) }
    ensures { FillEnsures stream
        (areas input.now stage.old output.old scratch.old)
        (areas input.now stage.new output.new scratch.new) result }
{
    let held = stream.held;
    let n = stream.held.0;
    if n == 0 {
        return Ok(nothing(stream, Outcome::Empty));
    }
    let speed = floats::times::local_speed(held, stream.sample_period, stream.input_play_time);
    if floats::times::speed_changes(speed) {
        if n < period::max_required(stream.rate as usize).0 {
            return Ok(nothing(stream, Outcome::Waiting));
        }
        return stretch_input(stream, speed, input, stage, output, scratch);
    }
    copy_input(stream, input, stage, output)
}
