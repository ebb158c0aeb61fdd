// An f64 as an f32, as integer work on the bits. std has it too, as `std::num::nearest_f64_to_f32_with_nan`; it is
// written here because the edits tie_rounded_up, largest_for_infinity and subnormal_flushed are wrong about this code.
ghost use Rattle.std.specs.Prelude.{◌≡◌, ◌+◌, ◌^◌, ◌<◌, ◌≤◌, Bool, not, T, ◌⊎◌, if◌then◌else◌, from_bits, to_bits};
ghost use Rattle.std.specs.Float.{binary32, binary64};
ghost use Rattle.std.specs.Float.Ieee.{of_fields, nan_bits};
ghost use Rattle.std.specs.Float.Ieee.Nearest as Nearest;
ghost use Rattle.floats.specs.Numbers.{narrow};

// d / m to the nearest whole number, a tie to the even one.
pub(crate) fn closest(d: u64, m: u64) -> u64
    requires digits_fit { d < 2 ^ 53 }
    requires unit_positive { 0 < m }
    requires unit_fits { m ≤ 2 ^ 53 }
    ensures { result ≡ Nearest.closest d m }
{
    let q = d / m;
    let twice = d % m * 2;
    if twice < m {
        q
    } else {
        if twice == m { q + q % 2 } else { q + 1 }
    }
}

// The bits, without the sign, of the f32 nearest to the f64 with the exponent field e and the digits t, which is
// no NaN.
pub(crate) fn magnitude(e: u64, t: u64) -> u32
    requires exponent_fits { e < 2048 }
    requires digits_fit { t < 2 ^ 52 }
    requires no_nan { (e < 2047) ⊎ (t ≡ 0) }
    ensures value { (s : Bool) → to_bits binary32 (narrow (of_fields binary64 s e t))
        ≡ (if s then 2 ^ 31 else 0) + result }
    ensures bound { result < 2 ^ 31 }
{
    if e < 873 {
        return 0;
    }
    if e < 897 {
        return closest(0x10_0000_0000_0000 + t, 1 << (926 - e)) as u32;
    }
    if e < 1151 {
        return ((e - 897) * 0x80_0000 + closest(0x10_0000_0000_0000 + t, 0x2000_0000)) as u32;
    }
    0x7f80_0000
}

// The bits of the f32 nearest to the f64 with the bits b.
pub(crate) fn nearest_bits(b: u64) -> u32
    requires { T (not (nan_bits binary64 b)) }
    ensures { result ≡ to_bits binary32 (narrow (from_bits binary64 b)) }
{
    let m = magnitude(
        b % 0x8000_0000_0000_0000 / 0x10_0000_0000_0000,
        b % 0x10_0000_0000_0000,
    );
    if b >= 0x8000_0000_0000_0000 {
        0x8000_0000 + m
    } else {
        m
    }
}
