// Copied frames: all frames of the input.
ghost use Rattle.std.specs.Prelude.{◌≡◌, false, [], ◌+◌, ◌*◌, ◌≤◌, length};
ghost use Rattle.frames.specs.Areas.{areas};
ghost use Rattle.floats.specs.Write.{speed_changes};
ghost use Rattle.stream.specs.Order.{StreamReady};
ghost use Rattle.fill.specs.Filling.{speed_of, destination_of, filled_area, AreasFit, CopyEnsures, FillEnsures};

use crate::destination::destination_of;
use crate::{Filled, Outcome, nothing, removed};
use frames::{Frames, Samples};
use stream::{Refusal, SonicStream};

// Copies all frames of the input to their destination, which has room for them. `AreasFit` and what is ensured relate
// areas before and after, which no type holds.
fn copy_frames(
    stream: SonicStream,
    input: &[i16],
    stage: &mut [i16],
    output: &mut [i16],
    kept: Frames,
)
    requires { AreasFit stream (areas input.now stage.old output.old [])
        × (kept.0 ≡ (destination_of stream (length stage.old) (length output.old)).kept.0)
        × ((kept.0 + stream.held.0) * stream.channels
        ≤ length (filled_area stream (areas input.now stage.old output.old []))) }
    ensures { CopyEnsures stream
        (areas input.now stage.old output.old [])
        (areas input.now stage.new output.new []) }
{
    let channels = stream.channels as usize;
    let count = stream.held.samples(channels);
    let place = kept.samples(channels);
    // A call for each area: a `&mut` that is one of two parameters, by a test, gets no generated proof.
    if stream.pitch == 1.0 {
        frames::copy(input, Samples(0), count, output, place);
        return;
    }
    frames::copy(input, Samples(0), count, stage, place);
}

// All frames of the input.
pub(crate) fn copy_input(
    stream: SonicStream,
    input: &[i16],
    stage: &mut [i16],
    output: &mut [i16],
) -> Result<Filled, Refusal>
    requires ready { StreamReady stream × AreasFit stream (areas input.now stage.old output.old []) }
    requires copies { (1 ≤ stream.held.0) × (speed_changes (speed_of stream) ≡ false) }
    ensures { FillEnsures stream
        (areas input.now stage.old output.old [])
        (areas input.now stage.new output.new []) result }
{
    let held = stream.held;
    let to = destination_of(stream, Samples(stage.len()), Samples(output.len()));
    if to.most.0 < held.0 {
        return Err(Refusal::StageFull);
    }
    if to.room.0 < held.0 {
        return Err(Refusal::OutputFull);
    }
    let kept = to.kept;
    copy_frames(stream, input, stage, output, kept);
    Ok(Filled {
        frames: held,
        used: held,
        stream: removed(stream, held),
        ..nothing(stream, Outcome::Copied)
    })
}
