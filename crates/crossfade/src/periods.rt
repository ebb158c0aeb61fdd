// What a step writes into the area: frames copied, and the frames of a period skipped or inserted.
ghost use Rattle.std.specs.Prelude.{◌≡◌, ◌+◌, ◌*◌, ◌≤◌, length};
ghost use Rattle.std.proofs.Math.Seq.{paste};
ghost use Rattle.crossfade.specs.Crossfade.{copy_unmodified_samples, skip_pitch_period, insert_pitch_period};
ghost use Rattle.search.specs.Search.{longest_period};

use crate::crossfades::overlap_add;
use frames::{Frames, Samples};

// Copies n frames of the input from the position on to the place `to` of the area. Input, channels and position stay
// apart here and below: each function has bounds of its own.
pub fn copy_unmodified_samples(
    input: &[i16],
    channels: usize,
    position: Frames,
    n: Frames,
    area: &mut [i16],
    to: Samples,
)
    requires { ((position.0 + n.0) * channels ≤ length input.now)
        × (to.0 + n.0 * channels ≤ length area.old) }
    ensures { area.new ≡ paste area.old to.0
        (copy_unmodified_samples channels input.now position.0 n.0) (n.0 * channels) }
{
    frames::copy(
        input,
        position.samples(channels),
        n.samples(channels),
        area,
        to,
    );
}

// Skips a period at the position: k frames, from there into one period later, at the place `to` of the area.
pub fn skip_pitch_period(
    input: &[i16],
    channels: usize,
    position: Frames,
    period: Frames,
    k: Frames,
    area: &mut [i16],
    to: Samples,
)
    requires { (1 ≤ channels) × (k.0 ≤ longest_period)
        × ((position.0 + (period.0 + k.0)) * channels ≤ length input.now)
        × (to.0 + k.0 * channels ≤ length area.old) }
    ensures { area.new ≡ paste area.old to.0
        (skip_pitch_period channels input.now position.0 period.0 k.0) (k.0 * channels) }
{
    let later = position.0 + period.0;
    let here = position.samples(channels);
    let there = Frames(later).samples(channels);
    overlap_add(k, channels, input, here, there, area, to);
}

// Inserts a period at the position: the period, then k frames from one period later into the position, at the place
// `to` of the area.
pub fn insert_pitch_period(
    input: &[i16],
    channels: usize,
    position: Frames,
    period: Frames,
    k: Frames,
    area: &mut [i16],
    to: Samples,
)
    requires { (1 ≤ channels) × (k.0 ≤ longest_period)
        × ((position.0 + (period.0 + k.0)) * channels ≤ length input.now)
        × (to.0 + (period.0 + k.0) * channels ≤ length area.old) }
    ensures { area.new ≡ paste area.old to.0
        (insert_pitch_period channels input.now position.0 period.0 k.0)
        ((period.0 + k.0) * channels) }
{
    copy_unmodified_samples(input, channels, position, period, area, to);
    let later = position.0 + period.0;
    let here = position.samples(channels);
    let there = Frames(later).samples(channels);
    let behind = to.0 + period.samples(channels).0;
    overlap_add(k, channels, input, there, here, area, Samples(behind));
}
