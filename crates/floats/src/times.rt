// Play time, local speed, and the frames that a flush keeps.
ghost use Rattle.std.specs.Prelude.{◌≡◌, ◌^◌, ◌≤◌};
ghost use Rattle.floats.specs.Write.{play_time_grown, play_time_left, local_speed, speed_changes};
ghost use Rattle.floats.specs.Flush.{expected_frames};

use frames::Frames;

// Play time after a write of n frames.
pub fn play_time_grown(play: f32, n: Frames, sample_period: f32, speed: f32, pitch: f32) -> f32
    requires { n.0 ≤ 2 ^ 24 }
    ensures { result ≡ play_time_grown play n.0 sample_period speed pitch }
{
    play + crate::casts::frames_to_f32(n) * sample_period / (speed / pitch)
}

// Play time after a call that leaves `left` of the frames held.
pub fn play_time_left(play: f32, left: Frames, held: Frames) -> f32
    requires { (left.0 ≤ 2 ^ 24) × (held.0 ≤ 2 ^ 24) }
    ensures { result ≡ play_time_left play left.0 held.0 }
{
    play * crate::casts::frames_to_f32(left) / crate::casts::frames_to_f32(held)
}

// The local speed of the frames held.
pub fn local_speed(held: Frames, sample_period: f32, play: f32) -> f32
    requires { held.0 ≤ 2 ^ 24 }
    ensures { result ≡ local_speed held.0 sample_period play }
{
    crate::casts::frames_to_f32(held) * sample_period / play
}

// Whether a local speed has the stretch run; otherwise, and for a NaN, the frames are copied.
pub fn speed_changes(s: f32) -> bool
    ensures { result ≡ speed_changes s }
{
    let wide = std::num::f32_to_f64_with_nan(s);
    wide > 1.00001 || wide < 0.99999
}

// The frames made by a flush that it keeps at most.
pub fn expected_frames(held: Frames, tail: Frames, speed: f32, pitch: f32) -> Frames
    requires { (held.0 ≤ 2 ^ 24) × (tail.0 ≤ 2 ^ 24) }
    ensures { result.0 ≡ expected_frames held.0 tail.0 speed pitch }
{
    let used = crate::casts::frames_to_f32(held) / (speed / pitch);
    let all = (used + crate::casts::frames_to_f32(tail)) / pitch;
    Frames(crate::casts::f32_to_usize(all + 0.5))
}
