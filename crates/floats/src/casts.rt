// Conversions as Rust's `as` has them, on every input.
ghost use Rattle.std.specs.Prelude.{◌≡◌, ◌^◌, ◌≤◌};
ghost use Rattle.std.specs.Float.Ieee.{to_signed, to_unsigned};
ghost use Rattle.floats.specs.Numbers.{count, narrow};

use frames::Frames;

// x as an f32: the nearest one, a tie to the even one; an infinity past the largest; a NaN for a NaN.
pub fn f64_to_f32(x: f64) -> f32
    ensures { result ≡ narrow x }
{
    if x != x {
        0.0 / 0.0
    } else {
        f32::from_bits(crate::narrowing::nearest_bits(f64::to_bits(x)))
    }
}

// x as an i32: cut toward zero, held to the range; 0 for a NaN. One for each type, as std has them.
pub fn f32_to_i32(x: f32) -> i32
    ensures { result ≡ to_signed 31 x }
{
    std::num::saturating_f32_to_i32(x)
}

// x as a usize: cut toward zero, held to the range; 0 for a NaN.
pub fn f32_to_usize(x: f32) -> usize
    ensures { result ≡ to_unsigned 64 x }
{
    std::num::saturating_f32_to_usize(x)
}

// A count of frames, which an f32 holds exactly. The bound stays a clause here and above: `Frames` has no ghost field,
// since C has it.
pub fn frames_to_f32(n: Frames) -> f32
    requires { n.0 ≤ 2 ^ 24 }
    ensures { result ≡ count n.0 }
{
    n.0 as f32
}
