// Crossfades: a sample, a frame, and `overlap_add`. A division by k, which all samples of a crossfade share, is a
// multiplication by its reciprocal.
ghost use Rattle.std.specs.Prelude.{◌≡◌, ◌+◌, ◌*◌, ◌≤◌, ◌<◌, pos, nat_abs, length, drop};
ghost use Rattle.std.specs.Int.Signed.{quot_z};
ghost use Rattle.std.proofs.Math.Seq.{paste};
ghost use Rattle.crossfade.specs.Crossfade.{crossfade_sample, crossfade_frame, overlap_add};
ghost use Rattle.search.specs.Search.{longest_period};

use frames::{Frames, Samples};
use reciprocals::Reciprocal;

// A crossfade of k frames of the input: those from the place `down` on fade into those from the place `up` on.
#[derive(Clone, Copy)]
struct Crossfade<'a> {
    k: Reciprocal,
    channels: usize,
    input: &'a [i16],
    down: Samples,
    up: Samples,
    ghost short: { k.of ≤ longest_period },
    ghost down_within: { down.0 + k.of * channels ≤ length input.now },
    ghost up_within: { up.0 + k.of * channels ≤ length input.now },
}

// A sum of k samples divided by k, toward zero.
fn divide(sum: i32, k: Reciprocal) -> i32
    requires { (1 ≤ k.of) × (k.of ≤ longest_period) × (nat_abs sum ≤ 32768 * k.of) }
    ensures { result ≡ quot_z sum (pos k.of) }
{
    let share = k.divide(sum.unsigned_abs() as u64) as i32;
    if sum < 0 { -share } else { share }
}

// A sample at step t of a crossfade of k steps.
fn crossfade_sample(down: i16, up: i16, t: usize, k: Reciprocal) -> i16
    requires { (t < k.of) × (k.of ≤ longest_period) }
    ensures { result ≡ crossfade_sample down up k.of t }
{
    let n = k.of as i32;
    let m = t as i32;
    let sum = (down as i32) * (n - m) + (up as i32) * m;
    divide(sum, k) as i16
}

// Writes frame t of a crossfade at the place `to` of the area.
fn crossfade_frame(fade: Crossfade, t: usize, area: &mut [i16], to: Samples)
    requires t_lt_k { t < fade.k.of }
    requires channels_in_bounds { to.0 + fade.channels ≤ length area.old }
    ensures { area.new ≡ paste area.old to.0
        (crossfade_frame fade.entry.k.of t (drop (fade.entry.down.0 + t * fade.entry.channels) fade.entry.input.now)
        (drop (fade.entry.up.0 + t * fade.entry.channels) fade.entry.input.now) fade.entry.channels)
        fade.entry.channels }
{
    let past = t * fade.channels;
    let from = fade.down.0 + past;
    let into = fade.up.0 + past;
    let at = to.0;
    for i in 0..fade.channels {
        let a = fade.input[from + i];
        let b = fade.input[into + i];
        let sample = crossfade_sample(a, b, t, fade.k);
        area[at + i] = sample;
    }
}

// `overlap_add` for any number of channels, frame by frame: each is a step.
fn crossfade_frames(fade: Crossfade, area: &mut [i16], to: Samples)
    requires { to.0 + fade.k.of * fade.channels ≤ length area.old }
    ensures { area.new ≡ paste area.old to.0
        (overlap_add fade.entry.k.of fade.entry.channels (drop fade.entry.down.0 fade.entry.input.now) (drop fade.entry.up.0 fade.entry.input.now))
        (fade.entry.k.of * fade.entry.channels) }
{
    let at = to.0;
    for t in 0..fade.k.of {
        crossfade_frame(fade, t, area, Samples(at + t * fade.channels));
    }
}

// `overlap_add` for one channel, sample by sample: each is a step. Beside `crossfade_frames` for speed: this takes 1.7 ns
// a sample, frame by frame two channels take 2.5.
fn crossfade_mono(fade: Crossfade, area: &mut [i16], to: Samples)
    requires one { fade.channels ≡ 1 }
    requires count_in_bounds { to.0 + fade.k.of ≤ length area.old }
    ensures { area.new ≡ paste area.old to.0
        (overlap_add fade.entry.k.of 1 (drop fade.entry.down.0 fade.entry.input.now) (drop fade.entry.up.0 fade.entry.input.now))
        fade.entry.k.of }
{
    let from = fade.down.0;
    let into = fade.up.0;
    let at = to.0;
    for t in 0..fade.k.of {
        let a = fade.input[from + t];
        let b = fade.input[into + t];
        let sample = crossfade_sample(a, b, t, fade.k);
        area[at + t] = sample;
    }
}

// A crossfade of k frames from the place `down` of the input into the place `up`, written at the place `to` of the
// area.
pub fn overlap_add(
    k: Frames,
    channels: usize,
    input: &[i16],
    down: Samples,
    up: Samples,
    area: &mut [i16],
    to: Samples,
)
    requires k_le_longest_period { k.0 ≤ longest_period }
    requires channels_in_bounds { (down.0 + k.0 * channels ≤ length input.now)
        × (up.0 + k.0 * channels ≤ length input.now)
        × (to.0 + k.0 * channels ≤ length area.old) }
    ensures { area.new ≡ paste area.old to.0
        (overlap_add k.0 channels (drop down.0 input.now) (drop up.0 input.now))
        (k.0 * channels) }
{
    let fade = Crossfade {
        k: Reciprocal::new(k.0),
        channels,
        input,
        down,
        up,
    };
    if channels == 1 {
        crossfade_mono(fade, area, to);
    } else {
        crossfade_frames(fade, area, to);
    }
}
