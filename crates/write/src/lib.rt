// The write, of values or of 16-bit samples: the parts are those of `write_parts`, and the samples are stored between
// them.
#![tactic(auto)]

ghost use Rattle.std.specs.Prelude.{map};
ghost use Rattle.frames.specs.Areas.{areas};
ghost use Rattle.floats.specs.Write.{sample_out};
ghost use Rattle.adding.specs.Calls.{write_call, CallEnsures, OrderAfter};

use floats::samples::{Sample, store};
use frames::Samples;
use process::Wrote;
use stream::{Refused, SonicStream};
use write_parts::{begin_write, end_write};

// Writes the whole frames of the samples' values; a partial last frame is dropped. `OrderAfter` stays a clause, and no
// ghost field of `Wrote`: the definitions of answers make one of any stream.
fn write<S: Sample>(
    stream: SonicStream,
    samples: &[S],
    input: &mut [i16],
    stage: &mut [i16],
    output: &mut [i16],
    scratch: &mut [i16],
) -> Result<Wrote, Refused>
    ensures call_ensures { CallEnsures stream.channels
        (write_call stream (map S.value samples.now)
        (areas input.old stage.old output.old scratch.old)) result
        (areas input.new stage.new output.new scratch.new) }
    ensures order_after { OrderAfter result }
{
    let (period, n) = begin_write(
        stream,
        Samples(samples.len()),
        input,
        stage,
        output,
        scratch,
    )?;
    let channels = stream.channels as usize;
    let count = n.samples(channels).0;
    let held = stream.held.samples(channels).0;
    store(&samples[..count], &mut input[held..]);
    end_write(stream, period, n, input, stage, output, scratch)
}

// Writes the whole frames of `samples`; a partial last frame is dropped.
pub fn write_f32(
    stream: SonicStream,
    samples: &[f32],
    input: &mut [i16],
    stage: &mut [i16],
    output: &mut [i16],
    scratch: &mut [i16],
) -> Result<Wrote, Refused>
    ensures call_ensures { CallEnsures stream.channels
        (write_call stream samples.now
        (areas input.old stage.old output.old scratch.old)) result
        (areas input.new stage.new output.new scratch.new) }
    ensures order_after { OrderAfter result }
{
    write(stream, samples, input, stage, output, scratch)
}

// The same of 16-bit samples, each as `write_f32` writes its value, sample/32767: −32768 as −32767.
pub fn write_i16(
    stream: SonicStream,
    samples: &[i16],
    input: &mut [i16],
    stage: &mut [i16],
    output: &mut [i16],
    scratch: &mut [i16],
) -> Result<Wrote, Refused>
    ensures call_ensures { CallEnsures stream.channels
        (write_call stream (map sample_out samples.now)
        (areas input.old stage.old output.old scratch.old)) result
        (areas input.new stage.new output.new scratch.new) }
    ensures order_after { OrderAfter result }
{
    write(stream, samples, input, stage, output, scratch)
}
