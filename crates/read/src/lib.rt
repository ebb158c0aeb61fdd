// The read: frames waiting, as f32 values. `specs/Reading.antt` says what it answers.
#![tactic(auto)]

ghost use Rattle.std.specs.Prelude.{◌≡◌, true, false, min};
ghost use Rattle.floats.specs.Settings.{sample_period};
ghost use Rattle.stream.specs.Refusals.{is_in_order, output_bad};
ghost use Rattle.read.specs.Reading.{read_count, read_call, ReadEnsures};

use frames::{Frames, Samples};
use stream::areas::output_bad;
use stream::{Refusal, Refused, SonicStream};

// An accepted read's answer: the frames given, and the stream without them.
#[derive(Clone, Copy)]
pub struct Gave {
    pub frames: Frames,
    pub stream: SonicStream,
}

// Gives the first n frames waiting. The period is that of the rate.
fn give(
    stream: SonicStream,
    period: f32,
    most: Frames,
    n: Frames,
    slice: &mut [f32],
    output: &mut [i16],
) -> Gave
    requires stream_value { (is_in_order stream ≡ true) × (period ≡ sample_period stream.rate) }
    requires output_value { (output_bad stream output.old ≡ false) × (n.0 ≡ read_count stream most.0 slice.old) }
    ensures { ReadEnsures stream.channels
        (read_call stream most.0 slice.old output.old) (Ok result)
        slice.old slice.new output.new }
{
    let channels = stream.channels as usize;
    let left = Frames(stream.waiting.0 - n.0);
    let given = n.samples(channels);
    floats::samples::samples_out(&output[..given.0], slice);
    frames::remove_front(output, given, left.samples(channels));
    Gave {
        frames: n,
        stream: SonicStream {
            sample_period: period,
            waiting: left,
            ..stream
        },
    }
}

// Gives frames waiting, at most `most`, at the front of the slice.
pub fn read_f32(
    stream: SonicStream,
    most: Frames,
    slice: &mut [f32],
    output: &mut [i16],
) -> Result<Gave, Refused>
    ensures { ReadEnsures stream.channels
        (read_call stream most.0 slice.old output.old) result
        slice.old slice.new output.new }
{
    let Some(period) = stream.ordered() else {
        return Err(Refused {
            refusal: Refusal::BadStream,
            stream,
        });
    };
    if output_bad(stream, output) {
        return Err(Refused {
            refusal: Refusal::BadAreas,
            stream,
        });
    }
    let whole = Samples(slice.len()).frames(stream.channels as usize);
    let n = Frames(stream.waiting.0.min(most.0).min(whole.0));
    Ok(give(stream, period, most, n, slice, output))
}
