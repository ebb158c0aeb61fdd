// Volume: `scale_samples` of the Rust original. `specs/Volume.antt` says what it gives.
#![tactic(auto)]

ghost use Rattle.std.specs.Prelude.{◌≡◌, map, ◌+◌, ◌≤◌, T, pos, nat_abs, length, drop};
ghost use Rattle.std.specs.Float.Ieee.{le};
ghost use Rattle.std.proofs.Math.Seq.{paste};
ghost use Rattle.frames.specs.Clamp.{clamp_z};
ghost use Rattle.floats.specs.Scales.{gain};
ghost use Rattle.floats.specs.Settings.{min_volume, max_volume};
ghost use Rattle.volume.specs.Volume.{lowest, highest, amplified, scaled};

use frames::Samples;

// The value held to ±32767. `sinc` holds to −32768 too: another range, a line each.
fn hold(value: i32) -> i16
    ensures { result ≡ clamp_z lowest highest value }
{
    value.clamp(-32767, 32767) as i16
}

// A sample at a gain in 256ths.
fn amplify(sample: i16, gain: i32) -> i16
    requires { nat_abs gain ≤ 25600 }
    ensures { result ≡ amplified gain sample }
{
    hold(((sample as i32) * gain) >> 8)
}

// The gain of a volume in its range, in 256ths.
fn fixed_point(volume: f32) -> i32
    requires { T (le min_volume volume) × T (le volume max_volume) }
    ensures value { result ≡ pos (gain volume) }
    ensures bound { gain volume ≤ 25600 }
{
    floats::scales::gain(volume) as i32
}

// Scales `count` samples of the area, from `at` on, by the volume; at volume 1.0 they stay.
pub fn scale_samples(area: &mut [i16], at: Samples, count: Samples, volume: f32)
    requires { T (le min_volume volume) × T (le volume max_volume) × (at.0 + count.0 ≤ length area.old) }
    ensures { area.new ≡ paste area.old at.0
        (map (scaled volume) (drop at.0 area.old)) count.0 }
{
    if volume == 1.0 {
        return;
    }
    let gain = fixed_point(volume);
    let t = at.0;
    for i in 0..count.0 {
        area[t + i] = amplify(area[t + i], gain);
    }
}
