// One call's work on a stream: frames that a write or a flush added are copied or stretched, then rate and volume
// follow. `specs/Process.antt` says what becomes of the samples. Work goes into the free parts of the areas first and
// is committed at the end.
#![tactic(auto)]

mod finish;

ghost use Rattle.std.specs.Prelude.{◌≡◌, ◌^◌, ◌+◌, ◌≤◌};
ghost use Rattle.frames.specs.Areas.{areas};
ghost use Rattle.floats.specs.Settings.{sample_period};
ghost use Rattle.stream.specs.Order.{StreamReady};
ghost use Rattle.fill.specs.Filling.{FillReady};
ghost use Rattle.process.specs.Streams.{joined_stream};
ghost use Rattle.process.specs.Working.{WorkEnsures};

pub use fill::{Outcome, Told};
use frames::Frames;
use stream::{Refusal, SonicStream};

// What an accepted write or flush gives: what is told of it, and the stream after it.
#[derive(Clone, Copy)]
pub struct Wrote {
    pub told: Told,
    pub stream: SonicStream,
}

// The stream when n frames have joined its input, with the sample period that its rate gives.
pub fn joined(stream: SonicStream, period: f32, n: Frames) -> SonicStream
    requires { (stream.held.0 + n.0 ≤ 2 ^ 24) × (period ≡ sample_period stream.rate) }
    ensures { result ≡ joined_stream n.0 stream }
{
    SonicStream {
        sample_period: period,
        input_play_time: floats::times::play_time_grown(
            stream.input_play_time,
            n,
            period,
            stream.speed,
            stream.pitch,
        ),
        held: Frames(stream.held.0 + n.0),
        ..stream
    }
}

// A call's work on the frames held: refused for a full stage, a full output or a total past 64 bits. Then the kept
// parts stay as they came. The four areas are parameters of their own throughout, as C lends them.
pub fn process_stream_input(
    stream: SonicStream,
    input: &mut [i16],
    stage: &mut [i16],
    output: &mut [i16],
    scratch: &mut [i16],
) -> Result<Wrote, Refusal>
    requires stream_ready { StreamReady stream }
    requires fill_ready { FillReady stream (areas input.old stage.old output.old scratch.old) }
    ensures { WorkEnsures stream
        (areas input.old stage.old output.old scratch.old)
        (areas input.new stage.new output.new scratch.new) result }
{
    let filled = fill::fill_area(stream, input, stage, output, scratch)?;
    finish::finish(stream, filled, input, stage, output)
}
