// The counts of the stretch steps and the time errors after them.
ghost use Rattle.std.specs.Prelude.{◌≡◌, ◌+◌, ◌^◌, ◌<◌, ◌≤◌};
ghost use Rattle.floats.specs.Steps.{copying_due, to_copy, copy_count, skip_count, insert_count, error_copied};
ghost use Rattle.floats.specs.Steps.{error_moved, error_skipped, error_inserted};

use frames::Frames;

// Whether a copying step is due at local speed s.
pub fn copying_due(s: f32, error: f32) -> bool
    ensures { result ≡ copying_due s error }
{
    let fast = s > 1.0 && s < 2.0 && error < 0.0;
    let slow = s < 1.0 && s > 0.5 && error > 0.0;
    fast || slow
}

// The frames that a copying step would copy, before they are cut and held to those left.
fn to_copy(error: f32, s: f32, sample_period: f32) -> f32
    ensures { result ≡ to_copy error s sample_period }
{
    let product = std::num::f32_to_f64_with_nan(error * s);
    let wide = std::num::f32_to_f64_with_nan(s);
    let period = std::num::f32_to_f64_with_nan(sample_period);
    crate::casts::f64_to_f32(1.0 - product / (period * (wide - 1.0)))
}

// The frames that a copying step copies, of those left.
pub fn copy_count(error: f32, s: f32, sample_period: f32, left: Frames) -> Frames
    requires { left.0 ≤ 2 ^ 24 }
    ensures value { result.0 ≡ copy_count error s sample_period left.0 }
    ensures bound { result.0 ≤ left.0 }
{
    let c = to_copy(error, s, sample_period);
    if c > crate::casts::frames_to_f32(left) {
        return left;
    }
    let k = crate::casts::f32_to_i32(c);
    Frames(k.max(0) as usize)
}

// The frames that a skip of a period makes.
pub fn skip_count(s: f32, period: Frames) -> Frames
    requires { period.0 < 2 ^ 24 }
    ensures value { result.0 ≡ skip_count s period.0 }
    ensures bound { result.0 ≤ period.0 }
{
    if s >= 2.0 {
        let n = crate::casts::frames_to_f32(period);
        return Frames(crate::casts::f32_to_usize(n / (s - 1.0)));
    }
    period
}

// The frames that an insert of a period makes behind it.
pub fn insert_count(s: f32, period: Frames) -> Frames
    requires { (1 ≤ period.0) × (period.0 < 2 ^ 24) }
    ensures value { result.0 ≡ insert_count s period.0 }
    ensures positive { 1 ≤ result.0 }
    ensures bound { result.0 ≤ period.0 }
{
    if s <= 0.5 {
        let n = crate::casts::frames_to_f32(period);
        let k = crate::casts::f32_to_usize(n * s / (1.0 - s));
        return Frames(k.max(1));
    }
    period
}

// The time error after n frames copied.
pub fn error_copied(error: f32, s: f32, sample_period: f32, n: Frames) -> f32
    requires { n.0 ≤ 2 ^ 24 }
    ensures { result ≡ error_copied error s sample_period n.0 }
{
    let time = std::num::f32_to_f64_with_nan(crate::casts::frames_to_f32(n) * sample_period);
    let wide = std::num::f32_to_f64_with_nan(s);
    let old = std::num::f32_to_f64_with_nan(error);
    crate::casts::f64_to_f32(old + time * (wide - 1.0) / wide)
}

// The time error after `made` frames out for `used` frames of the input, of which `held` play for `play`. The numbers
// of a step stay parameters: `stretch::StretchCall`, which has them, stands above this crate.
fn error_moved(
    error: f32,
    sample_period: f32,
    play: f32,
    held: Frames,
    made: Frames,
    used: Frames,
) -> f32
    requires { (held.0 ≤ 2 ^ 24) × (made.0 ≤ 2 ^ 24) × (used.0 ≤ 2 ^ 24) }
    ensures { result ≡ error_moved error sample_period play held.0 made.0 used.0 }
{
    let out = crate::casts::frames_to_f32(made) * sample_period;
    let taken = crate::casts::frames_to_f32(used) * play / crate::casts::frames_to_f32(held);
    error + (out - taken)
}

// The time error after a skip of a period that makes k frames. What it shares with an insert is `error_moved`: one
// function of both would take the test and the counts from its callers.
pub fn error_skipped(
    error: f32,
    s: f32,
    sample_period: f32,
    play: f32,
    held: Frames,
    period: Frames,
    k: Frames,
) -> f32
    requires { (held.0 ≤ 2 ^ 24) × (period.0 + k.0 ≤ 2 ^ 24) }
    ensures { result ≡ error_skipped error s sample_period play held.0 period.0 k.0 }
{
    if s < 2.0 {
        let used = period.0 + k.0;
        return error_moved(error, sample_period, play, held, k, Frames(used));
    }
    error
}

// The time error after an insert of a period with k frames behind it.
pub fn error_inserted(
    error: f32,
    s: f32,
    sample_period: f32,
    play: f32,
    held: Frames,
    period: Frames,
    k: Frames,
) -> f32
    requires { (held.0 ≤ 2 ^ 24) × (period.0 + k.0 ≤ 2 ^ 24) }
    ensures { result ≡ error_inserted error s sample_period play held.0 period.0 k.0 }
{
    if s > 0.5 {
        let made = period.0 + k.0;
        return error_moved(error, sample_period, play, held, Frames(made), k);
    }
    error
}
