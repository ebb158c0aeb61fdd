// The new rate of a pitch, and the gain of a volume.
ghost use Rattle.std.specs.Prelude.{◌≡◌, ◌^◌, ◌≤◌};
ghost use Rattle.floats.specs.Scales.{new_rate, gain};

// N before its halving: the whole part of rate/pitch.
pub fn new_rate(rate: u32, pitch: f32) -> usize
    requires { rate ≤ 2 ^ 24 }
    ensures { result ≡ new_rate rate pitch }
{
    crate::casts::f32_to_usize(rate as f32 / pitch)
}

// The gain of a volume, in 256ths.
pub fn gain(volume: f32) -> usize
    ensures { result ≡ gain volume }
{
    crate::casts::f32_to_usize(volume * 256.0)
}
