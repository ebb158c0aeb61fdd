// The flush: a write of silence, of which only the frames expected are kept; then everything held is cleared.
#![tactic(auto)]

ghost use Rattle.std.specs.Prelude.{◌≡◌, ◌+◌, ◌-◌, ◌*◌, ◌≤◌, min};
ghost use Rattle.frames.specs.Areas.{areas};
ghost use Rattle.floats.specs.Settings.{sample_period};
ghost use Rattle.period.specs.Rates.{max_required};
ghost use Rattle.stream.specs.Stream.{ChangedBy};
ghost use Rattle.process.specs.Process.{cleared};
ghost use Rattle.adding.specs.Calls.{flush_call, CallEnsures, OrderAfter};
ghost use Rattle.adding.specs.Adding.{AddReady};

use frames::Frames;
use process::Wrote;
use stream::areas::input_full;
use stream::{Refusal, Refused, SonicStream};
use write_parts::{end_write, enter};

// The stream after a flush: of the frames behind the first `waiting` ones at most `expected` wait, and nothing is
// held. Positions, period record and totals stay.
fn cleared(stream: SonicStream, waiting: Frames, expected: Frames) -> SonicStream
    requires { (waiting.0 ≤ stream.waiting.0) × (stream.sample_period ≡ sample_period stream.rate) }
    ensures { ChangedBy cleared stream (waiting.0 + min expected.0 (stream.waiting.0 - waiting.0)) result }
{
    let made = stream.waiting.0 - waiting.0;
    SonicStream {
        input_play_time: 0.0,
        time_error: 0.0,
        held: Frames(0),
        tail: Frames(0),
        waiting: Frames(waiting.0 + expected.0.min(made)),
        ..stream
    }
}

// A flush whose n silent frames fit the input.
fn flush_frames(
    stream: SonicStream,
    period: f32,
    n: Frames,
    input: &mut [i16],
    stage: &mut [i16],
    output: &mut [i16],
    scratch: &mut [i16],
) -> Result<Wrote, Refused>
    requires { AddReady stream period (areas input.old stage.old output.old scratch.old) n.0
        × (n.0 ≡ 2 * max_required stream.rate) }
    ensures call_ensures { CallEnsures stream.channels
        (flush_call stream (areas input.old stage.old output.old
        scratch.old)) result
        (areas input.new stage.new output.new scratch.new) }
    ensures order_after { OrderAfter result }
{
    let channels = stream.channels as usize;
    let expected = floats::times::expected_frames(
        stream.held,
        stream.tail,
        stream.speed,
        stream.pitch,
    );
    frames::silence(n.samples(channels), input, stream.held.samples(channels));
    let wrote = end_write(stream, period, n, input, stage, output, scratch)?;
    Ok(Wrote {
        stream: cleared(wrote.stream, stream.waiting, expected),
        ..wrote
    })
}

// Makes frames of what is held, and clears it. Refusal 5 is tested as `begin_write` tests it, which goes by a count of
// samples.
pub fn flush(
    stream: SonicStream,
    input: &mut [i16],
    stage: &mut [i16],
    output: &mut [i16],
    scratch: &mut [i16],
) -> Result<Wrote, Refused>
    ensures call_ensures { CallEnsures stream.channels
        (flush_call stream (areas input.old stage.old output.old
        scratch.old)) result
        (areas input.new stage.new output.new scratch.new) }
    ensures order_after { OrderAfter result }
{
    let period = enter(stream, input, stage, output, scratch)?;
    let n = Frames(2 * period::max_required(stream.rate as usize).0);
    if input_full(stream, n, input) {
        return Err(Refused {
            refusal: Refusal::InputFull,
            stream,
        });
    }
    flush_frames(stream, period, n, input, stage, output, scratch)
}
