// The clamp of a setting, and the sample period of a rate.
ghost use Rattle.std.specs.Prelude.{◌≡◌, ◌≤◌};
ghost use Rattle.floats.specs.Settings.{clamped, sample_period};

// `value` held to low..=high; a NaN to the lower end, where `f32::clamp` would keep it.
pub fn clamp(value: f32, low: f32, high: f32) -> f32
    ensures { result ≡ clamped value low high }
{
    if low <= value {
        if value <= high { value } else { high }
    } else {
        low
    }
}

// The sample period of a rate, in seconds: for these rates the quotient in f32 is the one in f64, rounded to f32.
pub fn sample_period(rate: u32) -> f32
    requires { (1000 ≤ rate) × (rate ≤ 500000) }
    ensures { result ≡ sample_period rate }
{
    1.0 / (rate as f32)
}
