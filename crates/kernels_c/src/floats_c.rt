// The float steps.
ghost use Rattle.std.specs.Prelude.{◌≡◌, ◌+◌, ◌<◌, ◌≤◌, ◌^◌};
ghost use Rattle.std.specs.Float.Ieee.{to_signed, to_unsigned};
ghost use Rattle.floats.specs.Numbers.{narrow};
ghost use Rattle.floats.specs.Settings.{clamped, sample_period};
ghost use Rattle.floats.specs.Write.{sample_in, sample_out, play_time_grown, play_time_left};
ghost use Rattle.floats.specs.Write.{local_speed, speed_changes};
ghost use Rattle.floats.specs.Steps.{copying_due, copy_count, skip_count, insert_count, error_copied, error_skipped};
ghost use Rattle.floats.specs.Steps.{error_inserted};
ghost use Rattle.floats.specs.Scales.{new_rate, gain};
ghost use Rattle.floats.specs.Flush.{expected_frames};

use frames::Frames;

#[unsafe(no_mangle)]
pub extern "C" fn kernel_f64_to_f32(x: f64) -> f32
    ensures { result ≡ narrow x }
{
    floats::casts::f64_to_f32(x)
}

#[unsafe(no_mangle)]
pub extern "C" fn kernel_f32_to_i32(x: f32) -> i32
    ensures { result ≡ to_signed 31 x }
{
    floats::casts::f32_to_i32(x)
}

#[unsafe(no_mangle)]
pub extern "C" fn kernel_f32_to_usize(x: f32) -> usize
    ensures { result ≡ to_unsigned 64 x }
{
    floats::casts::f32_to_usize(x)
}

#[unsafe(no_mangle)]
pub extern "C" fn kernel_clamp(value: f32, low: f32, high: f32) -> f32
    ensures { result ≡ clamped value low high }
{
    floats::settings::clamp(value, low, high)
}

#[unsafe(no_mangle)]
pub extern "C" fn kernel_sample_period(rate: u32) -> f32
    requires { (1000 ≤ rate) × (rate ≤ 500000) }
    ensures { result ≡ sample_period rate }
{
    floats::settings::sample_period(rate)
}

#[unsafe(no_mangle)]
pub extern "C" fn kernel_sample_in(x: f32) -> i16
    ensures { result ≡ sample_in x }
{
    floats::samples::sample_in(x)
}

#[unsafe(no_mangle)]
pub extern "C" fn kernel_sample_out(v: i16) -> f32
    ensures { result ≡ sample_out v }
{
    floats::samples::sample_out(v)
}

#[unsafe(no_mangle)]
pub extern "C" fn kernel_play_time_grown(
    play: f32,
    n: usize,
    period: f32,
    speed: f32,
    pitch: f32,
) -> f32
    requires { n ≤ 2 ^ 24 }
    ensures { result ≡ play_time_grown play n period speed pitch }
{
    floats::times::play_time_grown(play, Frames(n), period, speed, pitch)
}

#[unsafe(no_mangle)]
pub extern "C" fn kernel_play_time_left(play: f32, left: usize, held: usize) -> f32
    requires { (left ≤ 2 ^ 24) × (held ≤ 2 ^ 24) }
    ensures { result ≡ play_time_left play left held }
{
    floats::times::play_time_left(play, Frames(left), Frames(held))
}

#[unsafe(no_mangle)]
pub extern "C" fn kernel_local_speed(held: usize, period: f32, play: f32) -> f32
    requires { held ≤ 2 ^ 24 }
    ensures { result ≡ local_speed held period play }
{
    floats::times::local_speed(Frames(held), period, play)
}

#[unsafe(no_mangle)]
pub extern "C" fn kernel_speed_changes(s: f32) -> bool
    ensures { result ≡ speed_changes s }
{
    floats::times::speed_changes(s)
}

#[unsafe(no_mangle)]
pub extern "C" fn kernel_expected_frames(held: usize, tail: usize, speed: f32, pitch: f32) -> usize
    requires { (held ≤ 2 ^ 24) × (tail ≤ 2 ^ 24) }
    ensures { result ≡ expected_frames held tail speed pitch }
{
    let e = floats::times::expected_frames(Frames(held), Frames(tail), speed, pitch);
    e.0
}

#[unsafe(no_mangle)]
pub extern "C" fn kernel_copying_due(s: f32, error: f32) -> bool
    ensures { result ≡ copying_due s error }
{
    floats::steps::copying_due(s, error)
}

#[unsafe(no_mangle)]
pub extern "C" fn kernel_copy_count(error: f32, s: f32, period: f32, left: usize) -> usize
    requires { left ≤ 2 ^ 24 }
    ensures { result ≡ copy_count error s period left }
{
    let n = floats::steps::copy_count(error, s, period, Frames(left));
    n.0
}

#[unsafe(no_mangle)]
pub extern "C" fn kernel_skip_count(s: f32, period: usize) -> usize
    requires { period < 2 ^ 24 }
    ensures { result ≡ skip_count s period }
{
    let k = floats::steps::skip_count(s, Frames(period));
    k.0
}

#[unsafe(no_mangle)]
pub extern "C" fn kernel_insert_count(s: f32, period: usize) -> usize
    requires { (1 ≤ period) × (period < 2 ^ 24) }
    ensures { result ≡ insert_count s period }
{
    let k = floats::steps::insert_count(s, Frames(period));
    k.0
}

#[unsafe(no_mangle)]
pub extern "C" fn kernel_error_copied(error: f32, s: f32, period: f32, n: usize) -> f32
    requires { n ≤ 2 ^ 24 }
    ensures { result ≡ error_copied error s period n }
{
    floats::steps::error_copied(error, s, period, Frames(n))
}

#[unsafe(no_mangle)]
pub extern "C" fn kernel_error_skipped(
    error: f32,
    s: f32,
    period: f32,
    play: f32,
    held: usize,
    p: usize,
    k: usize,
) -> f32
    requires { (held ≤ 2 ^ 24) × (p + k ≤ 2 ^ 24) }
    ensures { result ≡ error_skipped error s period play held p k }
{
    floats::steps::error_skipped(error, s, period, play, Frames(held), Frames(p), Frames(k))
}

#[unsafe(no_mangle)]
pub extern "C" fn kernel_error_inserted(
    error: f32,
    s: f32,
    period: f32,
    play: f32,
    held: usize,
    p: usize,
    k: usize,
) -> f32
    requires { (held ≤ 2 ^ 24) × (p + k ≤ 2 ^ 24) }
    ensures { result ≡ error_inserted error s period play held p k }
{
    floats::steps::error_inserted(error, s, period, play, Frames(held), Frames(p), Frames(k))
}

#[unsafe(no_mangle)]
pub extern "C" fn kernel_new_rate(rate: u32, pitch: f32) -> usize
    requires { rate ≤ 2 ^ 24 }
    ensures { result ≡ new_rate rate pitch }
{
    floats::scales::new_rate(rate, pitch)
}

#[unsafe(no_mangle)]
pub extern "C" fn kernel_gain(volume: f32) -> usize
    ensures { result ≡ gain volume }
{
    floats::scales::gain(volume)
}
