// What a step writes into an area.
ghost use Rattle.std.specs.Prelude.{◌≡◌, cond, ◌+◌, ◌*◌, ◌^◌, ◌≤◌, ltb, length};
ghost use Rattle.std.proofs.Math.Seq.{paste};
ghost use Rattle.search.specs.Search.{longest_period};
ghost use Rattle.stretch.specs.Steps.{frames_out, frames_read, crossfaded, samples_out};

use crate::{Step, Target};
use crossfade::{copy_unmodified_samples, insert_pitch_period, skip_pitch_period};
use frames::{Frames, Samples};

// Writes the frames that a step at the position makes at the place `to` of the area.
fn write_step(
    step: Step,
    input: &[i16],
    channels: usize,
    position: Frames,
    area: &mut [i16],
    to: Samples,
)
    requires channels_some { 1 ≤ channels }
    requires short { crossfaded step ≤ longest_period }
    requires read_lent { (position.0 + frames_read step) * channels ≤ length input.now }
    requires fits { to.0 + frames_out step * channels ≤ length area.old }
    ensures { area.new ≡ paste area.old to.0
        (samples_out channels input.now position.0 step) (frames_out step * channels) }
{
    match step {
        Step::Copied(n) => copy_unmodified_samples(input, channels, position, n, area, to),
        Step::Skipped(period, k) => skip_pitch_period(
            input, channels, position, period, k, area, to,
        ),
        Step::Inserted(period, k) => {
            insert_pitch_period(input, channels, position, period, k, area, to);
        }
        Step::Passed(_) => {}
    }
}

// The same for a step of n frames, behind `made` frames that stand at the target, if there is room for all of them
// there; else nothing is written.
pub(crate) fn write_fitting(
    step: Step,
    n: Frames,
    input: &[i16],
    channels: usize,
    position: Frames,
    area: &mut [i16],
    target: Target,
    made: Frames,
)
    requires counted { n.0 ≡ frames_out step }
    requires few { made.0 + n.0 ≤ 2 ^ 25 }
    requires channels_some { 1 ≤ channels }
    requires short { crossfaded step ≤ longest_period }
    requires read_lent { (position.0 + frames_read step) * channels ≤ length input.now }
    requires target_fits { target.to.0 + target.room.0 * channels ≤ length area.old }
    ensures { area.new ≡ cond (ltb target.room.0 (made.0 + frames_out step)) area.old
        (paste area.old (target.to.0 + made.0 * channels)
        (samples_out channels input.now position.0 step) (frames_out step * channels)) }
{
    if target.room.0 < made.0 + n.0 {
        return;
    }
    let at = target.to.0 + made.samples(channels).0;
    write_step(step, input, channels, position, area, Samples(at));
}
