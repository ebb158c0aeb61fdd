// What a write and a flush share: the work of a call that has added frames to the input. `specs/Calls.antt` says what
// each answers.
#![tactic(auto)]

ghost use Rattle.frames.specs.Areas.{areas};
ghost use Rattle.adding.specs.Adding.{AddReady, AddEnsures};

use frames::Frames;
use process::Wrote;
use stream::{Refusal, SonicStream};

// The work of a call that has put n frames behind those held. The period is that of the rate. Stream, period and n as
// they come: docs/CRATES.md names this function.
pub fn process_added(
    stream: SonicStream,
    period: f32,
    n: Frames,
    input: &mut [i16],
    stage: &mut [i16],
    output: &mut [i16],
    scratch: &mut [i16],
) -> Result<Wrote, Refusal>
    requires { AddReady stream period (areas input.old stage.old output.old scratch.old) n.0 }
    ensures { AddEnsures stream n.0
        (areas input.old stage.old output.old scratch.old)
        (areas input.new stage.new output.new scratch.new) result }
{
    let joined = process::joined(stream, period, n);
    process::process_stream_input(joined, input, stage, output, scratch)
}
