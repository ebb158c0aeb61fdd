// The second half of a call's work: rate and volume, into the output behind the frames waiting; then what was used
// leaves input and tail, and the totals grow.
ghost use Rattle.std.specs.Prelude.{[], map, ◌+◌, ◌*◌, ◌^◌, ◌≤◌, length};
ghost use Rattle.frames.specs.Areas.{areas};
ghost use Rattle.frames.specs.Framing.{Behind};
ghost use Rattle.volume.specs.Volume.{scaled};
ghost use Rattle.rate.specs.Adjusting.{new_frames};
ghost use Rattle.stream.specs.Order.{StreamReady};
ghost use Rattle.process.specs.Finishing.{ConvertReady, FinishReady, CommitReady};
ghost use Rattle.process.specs.Finishing.{ConvertEnsures, CommitEnsures, FinishEnsures};

use crate::Wrote;
use fill::Filled;
use frames::Frames;
use rate::{Adjusted, Position};
use stream::{Refusal, SonicStream};

// The frames made by this call, at the volume.
fn scale_made(stream: SonicStream, made: Frames, output: &mut [i16])
    requires { StreamReady stream × ((stream.waiting.0 + made.0) * stream.channels ≤ length output.old)
        × (length output.old ≤ 2 ^ 24) }
    ensures { Behind stream.channels stream.waiting.0 made.0 output.old output.new
        (map (map (scaled stream.volume))
        (new_frames stream.channels stream.waiting.0 made.0 output.old)) }
{
    let channels = stream.channels as usize;
    volume::scale_samples(
        output,
        stream.waiting.samples(channels),
        made.samples(channels),
        stream.volume,
    );
}

// The conversion is done, or at pitch 1.0 none was due. Unless a total passes 64 bits: volume, and what was used leaves
// input and tail.
fn commit(
    stream: SonicStream,
    filled: Filled,
    adjusted: Adjusted,
    input: &mut [i16],
    stage: &mut [i16],
    output: &mut [i16],
) -> Result<Wrote, Refusal>
    requires { CommitReady stream filled adjusted (areas input.old stage.old output.old []) }
    ensures { CommitEnsures stream filled adjusted
        (areas input.old stage.old output.old [])
        (areas input.new stage.new output.new []) result }
{
    let channels = stream.channels as usize;
    let after = filled.stream;
    let balance = after
        .balance
        .book(filled.balance)
        .ok_or(Refusal::TotalFull)?;
    scale_made(stream, adjusted.made, output);
    frames::remove_front(
        input,
        filled.used.samples(channels),
        after.held.samples(channels),
    );
    frames::remove_front(
        stage,
        adjusted.from.samples(channels),
        adjusted.left.samples(channels),
    );
    Ok(Wrote {
        told: filled.told,
        stream: SonicStream {
            old_rate_position: adjusted.at.old,
            new_rate_position: adjusted.at.new,
            tail: adjusted.left,
            waiting: Frames(stream.waiting.0 + adjusted.made.0),
            balance,
            ..after
        },
    })
}

// The new frames at the pitch, behind the frames waiting in the output. At pitch 1.0 they stand there already, and the
// tail stays.
fn convert(stream: SonicStream, new: Frames, stage: &[i16], output: &mut [i16]) -> Option<Adjusted>
    requires { ConvertReady stream new.0 (areas [] stage.now output.old []) }
    ensures { ConvertEnsures stream new.0 (areas [] stage.now output.old [])
        output.new result }
{
    let at = Position {
        old: stream.old_rate_position,
        new: stream.new_rate_position,
    };
    if stream.pitch == 1.0 {
        return Some(Adjusted {
            made: new,
            from: Frames(0),
            left: stream.tail,
            at,
        });
    }
    rate::adjust_rate(
        stage,
        stream.tail,
        new,
        stream.channels as usize,
        stream.rate,
        stream.pitch,
        at,
        output,
        stream.waiting,
    )
}

// The new frames at the pitch and the volume, behind the frames waiting in the output.
pub(crate) fn finish(
    stream: SonicStream,
    filled: Filled,
    input: &mut [i16],
    stage: &mut [i16],
    output: &mut [i16],
) -> Result<Wrote, Refusal>
    requires { FinishReady stream filled (areas input.old stage.old output.old []) }
    ensures { FinishEnsures stream filled
        (areas input.old stage.old output.old [])
        (areas input.new stage.new output.new []) result }
{
    let adjusted = convert(stream, filled.frames, stage, output).ok_or(Refusal::OutputFull)?;
    commit(stream, filled, adjusted, input, stage, output)
}
