// Floats as their bits, and sums over samples: one number for a part of an area, in which every sample and its place
// count.
ghost use Rattle.std.specs.Prelude.{◌≡◌, ◌+◌, ◌*◌, ◌%◌, ◌^◌, from_bits, to_bits};
ghost use Rattle.std.specs.Float.{binary32};

use floats::samples::sample_out;
use frames::Frames;

// A sum of nothing.
const START: u32 = 1;

const FACTOR: u64 = 16_777_619;

const WORDS: u64 = 0x1_0000_0000;

// The bits of x.
pub fn bits(x: f32) -> u32
    ensures { result ≡ to_bits binary32 x }
{
    std::num::f32_to_bits_with_nan(x)
}

// The f32 with these bits.
pub fn float(pattern: u32) -> f32
    ensures { result ≡ from_bits binary32 pattern }
{
    std::num::f32_from_bits_with_nan(pattern)
}

// The last 32 bits of a number.
pub fn word(value: u64) -> u32
    ensures { result ≡ value % 2 ^ 32 }
{
    (value % WORDS) as u32
}

// A sum with one word more: sum · FACTOR + next, modulo 2^32.
fn joined(sum: u32, next: u32) -> u32
    ensures { result ≡ (sum * 16777619 + next) % 2 ^ 32 }
{
    word(sum as u64 * FACTOR + next as u64)
}

// The sum over a slice.
pub fn slice_sum(slice: &[f32]) -> u32 {
    slice.iter().fold(START, |sum, x| joined(sum, bits(*x)))
}

// The sum over the first frames of an area, as the values that a read gives for their samples, or 0 where it has fewer.
// No Option: stored runs print a number in any case.
pub fn area_sum(area: &[i16], count: Frames, channels: u32) -> u32 {
    match count.0.checked_mul(channels as usize) {
        Some(n) if channels > 0 && n <= area.len() => area[..n]
            .iter()
            .fold(START, |sum, v| joined(sum, bits(sample_out(*v)))),
        _ => 0,
    }
}
