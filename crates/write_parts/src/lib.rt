// What every write and every flush begin and end with: refusals 3 to 5 by the stream and the areas' lengths, before the
// samples are stored; 6, 7 and 12 by the work on them. `specs/Writing.antt` says what is answered.
#![tactic(auto)]

ghost use Rattle.frames.specs.Areas.{areas};
ghost use Rattle.adding.specs.Adding.{AddReady};
ghost use Rattle.write_parts.specs.Writing.{EnteredAs, BegunAs, WorkAnswered};

use adding::process_added;
use frames::{Frames, Samples};
use process::Wrote;
use stream::areas::{areas_bad, input_full};
use stream::{Refusal, Refused, SonicStream};

// Refusals 3 and 4; or the sample period that the stream's rate gives.
pub fn enter(
    stream: SonicStream,
    input: &[i16],
    stage: &[i16],
    output: &[i16],
    scratch: &[i16],
) -> Result<f32, Refused>
    ensures { EnteredAs stream (areas input.now stage.now output.now scratch.now) result }
{
    let period = stream.ordered().ok_or(Refused {
        refusal: Refusal::BadStream,
        stream,
    })?;
    if areas_bad(stream, input, stage, output, scratch) {
        return Err(Refused {
            refusal: Refusal::BadAreas,
            stream,
        });
    }
    Ok(period)
}

// Refusals 3 to 5, of a write of so many samples; or the sample period, and the frames that it adds.
pub fn begin_write(
    stream: SonicStream,
    count: Samples,
    input: &[i16],
    stage: &[i16],
    output: &[i16],
    scratch: &[i16],
) -> Result<(f32, Frames), Refused>
    ensures { BegunAs stream count.0
        (areas input.now stage.now output.now scratch.now) result }
{
    let period = enter(stream, input, stage, output, scratch)?;
    let n = count.frames(stream.channels as usize);
    if input_full(stream, n, input) {
        return Err(Refused {
            refusal: Refusal::InputFull,
            stream,
        });
    }
    Ok((period, n))
}

// The work on n frames that are stored behind those held, and the answer.
pub fn end_write(
    stream: SonicStream,
    period: f32,
    n: Frames,
    input: &mut [i16],
    stage: &mut [i16],
    output: &mut [i16],
    scratch: &mut [i16],
) -> Result<Wrote, Refused>
    requires { AddReady stream period (areas input.old stage.old output.old scratch.old) n.0 }
    ensures { WorkAnswered stream n.0
        (areas input.old stage.old output.old scratch.old)
        (areas input.new stage.new output.new scratch.new) result }
{
    process_added(stream, period, n, input, stage, output, scratch).map_err(|refusal| Refused {
        refusal,
        stream,
    })
}
