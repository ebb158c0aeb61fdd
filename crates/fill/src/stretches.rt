// Stretched frames: those of the steps at the local speed.
ghost use Rattle.std.specs.Prelude.{◌≡◌, true, ◌*◌, ◌^◌, ◌≤◌, length};
ghost use Rattle.frames.specs.Areas.{areas};
ghost use Rattle.floats.specs.Settings.{sample_period};
ghost use Rattle.floats.specs.Write.{speed_changes};
ghost use Rattle.period.specs.Rates.{max_required};
ghost use Rattle.stream.specs.Order.{StreamReady};
ghost use Rattle.fill.specs.Filling.{speed_of, destination_of, AreasFit, FillReady};
ghost use Rattle.fill.specs.Filling.{SteppedAs, StretchEnsures, FillEnsures};

use crate::destination::{Destination, destination_of};
use crate::{Filled, Outcome, Told, balance_of, removed};
use frames::{Frames, Samples};
use period::PeriodRecord;
use stream::{Balance, Refusal, SonicStream, Ties};
use stretch::{ReadyCall, Stretch, StretchCall, Target};

// What the steps of a stretch gave; a stall removes no input and counts no step.
fn stepped(stream: SonicStream, stretch: Stretch) -> Filled
    requires { (stretch.used.0 ≤ stream.held.0) × (stream.held.0 ≤ 2 ^ 24)
        × (stream.sample_period ≡ sample_period stream.rate) }
    ensures { SteppedAs stream stretch result }
{
    let after = SonicStream {
        time_error: stretch.time_error,
        prev_period: stretch.prev.period,
        prev_min_diff: stretch.prev.min_diff,
        ..stream
    };
    let stalled = Filled {
        frames: stretch.made,
        used: Frames(0),
        balance: Balance::NONE,
        stream: after,
        told: Told {
            outcome: Outcome::Stalled,
            passed: stretch.passed,
            sum: stretch.sum,
        },
    };
    if stretch.stalled {
        return stalled;
    }
    Filled {
        used: stretch.used,
        balance: balance_of(stretch.made, stretch.used),
        stream: removed(after, stretch.used),
        told: Told {
            outcome: Outcome::Stretched,
            ..stalled.told
        },
        ..stalled
    }
}

// The stretch of the frames held, whose samples are lent, to its destination.
fn stretch_frames(
    stream: SonicStream,
    ready: ReadyCall,
    samples: &[i16],
    stage: &mut [i16],
    output: &mut [i16],
    to: Destination,
    scratch: &mut [i16],
) -> Option<Stretch>
    requires of_stream { StreamReady stream × (ready.call.rate ≡ stream.rate)
        × (ready.call.channels ≡ stream.channels) }
    requires lent { (ready.call.held.0 * ready.call.channels ≤ length samples.now)
        × (max_required stream.rate ≤ length scratch.old)
        × AreasFit stream (areas samples.now stage.old output.old scratch.old)
        × (to ≡ destination_of stream (length stage.old) (length output.old)) }
    ensures { StretchEnsures stream ready.call
        (areas samples.now stage.old output.old scratch.old)
        (areas samples.now stage.new output.new scratch.new) result }
{
    let target = Target {
        to: to.kept.samples(ready.call.channels),
        room: to.room,
        most: to.most,
    };
    let error = stream.time_error;
    let prev = PeriodRecord {
        period: stream.prev_period,
        min_diff: stream.prev_min_diff,
    };
    // A call for each area: a `&mut` that is one of two parameters, by a test, gets no generated proof.
    if stream.pitch == 1.0 {
        return stretch::change_speed(samples, ready, error, prev, output, target, scratch);
    }
    stretch::change_speed(samples, ready, error, prev, stage, target, scratch)
}

// The stretch at the local speed.
pub(crate) fn stretch_input(
    stream: SonicStream,
    speed: f32,
    input: &[i16],
    stage: &mut [i16],
    output: &mut [i16],
    scratch: &mut [i16],
) -> Result<Filled, Refusal>
    requires ready { StreamReady stream
        × FillReady stream (areas input.now stage.old output.old scratch.old) }
    requires stretches { (max_required stream.rate ≤ stream.held.0) × (speed ≡ speed_of stream)
        × (speed_changes speed ≡ true) }
    ensures { FillEnsures stream
        (areas input.now stage.old output.old scratch.old)
        (areas input.now stage.new output.new scratch.new) result }
{
    let channels = stream.channels as usize;
    let ready = ReadyCall {
        call: StretchCall {
            channels,
            rate: stream.rate as usize,
            sample_period: stream.sample_period,
            speed,
            input_play_time: stream.input_play_time,
            held: stream.held,
            step_over: stream.step_over > 0,
            ties: Ties::from(stream.ties),
        },
    };
    let count = stream.held.samples(channels).0;
    let to = destination_of(stream, Samples(stage.len()), Samples(output.len()));
    let made = stretch_frames(stream, ready, &input[..count], stage, output, to, scratch).ok_or(
        Refusal::StageFull,
    )?;
    if to.room.0 < made.made.0 {
        return Err(Refusal::OutputFull);
    }
    Ok(stepped(stream, made))
}
