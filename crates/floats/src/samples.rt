// Samples on their way in and out.
ghost use Rattle.std.specs.Prelude.{◌≡◌, ◌≤◌, map, length, from_bits, unsigned_abs, Float};
ghost use Rattle.std.specs.Float.{binary32};
ghost use Rattle.std.specs.Float.Ieee.{to_signed};
ghost use Rattle.std.proofs.Math.Seq.{paste};
ghost use Rattle.floats.specs.Bits.{SampleSize, cut_magnitude};
ghost use Rattle.floats.specs.Write.{unit_clamped, sample_in, sample_out};

// x held to ±1; a NaN stays a NaN.
fn clamp_unit(x: f32) -> f32
    ensures { result ≡ unit_clamped x }
{
    x.clamp(-1.0, 1.0)
}

// The whole part of the size of the f32 with the bits b: its sixteen leading digits, moved by the exponent. Both
// factors are u16, so that a loop multiplies several samples at once.
fn cut_magnitude(b: u32) -> u32
    requires { SampleSize b }
    ensures { result ≡ cut_magnitude b }
{
    let e = b % 0x8000_0000 / 0x80_0000;
    let digits = (0x8000 + b % 0x80_0000 / 0x100) as u16;
    let weight = (1u32 << (e - 126)) as u16;
    (digits as u32) * (weight as u32) / 0x1_0000
}

// The f32 with the bits b, cut toward zero.
fn cut_pattern(b: u32) -> i16
    requires { SampleSize b }
    ensures { result ≡ to_signed 15 (from_bits binary32 b) }
{
    let m = cut_magnitude(b) as i32;
    let v = if b >= 0x8000_0000 { -m } else { m };
    v as i16
}

// The sample that is stored for one that is written, cut on the bits of the product. A product below 1 in size, or a
// NaN, gives 0.
pub fn sample_in(x: f32) -> i16
    ensures value { result ≡ sample_in x }
    ensures bound { unsigned_abs result ≤ 32767 }
{
    let p = clamp_unit(x) * 32767.0;
    if p >= 1.0 || p <= -1.0 {
        cut_pattern(f32::to_bits(p))
    } else {
        0
    }
}

// The sample that a write stores for the value of this one: the same, but −32767 for −32768, whose value is below −1.
fn sample_back(v: i16) -> i16
    ensures { result ≡ sample_in (sample_out v) }
{
    v.max(-32767)
}

// A sample that a write is given: an f32, or a 16-bit sample as the value that a read gives for it.
pub trait Sample: Copy {
    ghost value: { Self → Float };

    // The sample that is stored for it.
    fn stored(self) -> i16
        ensures { result ≡ sample_in (value self) };
}

impl Sample for f32 {
    ghost value = { λ x. x };

    fn stored(self) -> i16 {
        sample_in(self)
    }
}

impl Sample for i16 {
    ghost value = { sample_out };

    fn stored(self) -> i16 {
        sample_back(self)
    }
}

// Stores the samples of a write at the front of the area.
pub fn store<S: Sample>(source: &[S], area: &mut [i16])
    requires { length source.now ≤ length area.old }
    ensures { area.new ≡ paste area.old 0 (map sample_in (map S.value source.now))
        (length source.now) }
{
    for (i, x) in source.iter().enumerate() {
        area[i] = x.stored();
    }
}

// 2^-15, exactly.
const RECIPROCAL_OF_32768: f32 = 0.000030517578125;

// The f32 nearest to 1/32767.
const RECIPROCAL_OF_32767: f32 = 0.000030518509;

// The value that a read gives for a stored sample: sample/32767 is a + a/32767 for a = sample/32768, which is exact.
// With 1/32767 rounded the sum still rounds to the same f32, and a product takes less time than a division.
pub fn sample_out(v: i16) -> f32
    ensures { result ≡ sample_out v }
{
    let a = v as f32 * RECIPROCAL_OF_32768;
    a + a * RECIPROCAL_OF_32767
}

// Gives the values of the samples of an area, at the front of the slice.
pub fn samples_out(area: &[i16], slice: &mut [f32])
    requires { length area.now ≤ length slice.old }
    ensures { slice.new ≡ paste slice.old 0 (map sample_out area.now) (length area.now) }
{
    for (i, &v) in area.iter().enumerate() {
        slice[i] = sample_out(v);
    }
}
