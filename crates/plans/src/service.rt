// Whether the areas serve a job, and its plan.
ghost use Rattle.std.specs.Prelude.{◌≡◌, true, ◌≤◌, min};
ghost use Rattle.search.specs.Search.{longest_period};
ghost use Rattle.stream.specs.Refusals.{is_in_order};
ghost use Rattle.plans.specs.Plans.{scratch_area, is_small, stage_area, output_area, growth_of, fill_to, held_within};
ghost use Rattle.plans.specs.Plans.{output_room, held_most, limit_of, served, IsPlanOf, IsServiceOf};

use crate::{
    BLOCK_SAMPLES, INPUT_AREA, OUTPUT_AREA, Plan, SMALL_OUTPUT_AREA, SMALL_STAGE_AREA, STAGE_AREA,
};
use frames::{Frames, Samples};
use stream::SonicStream;

// The frames that rate conversion keeps in the tail.
const TAIL_FRAMES: usize = 12;

// Whether a job is small: at 4 and more times the pitch as speed the stretch only skips, and from pitch 0.5 on rate
// conversion makes about two frames of one at the most.
fn is_small(stream: SonicStream) -> bool
    ensures { result ≡ is_small stream }
{
    let s = floats::casts::f32_to_usize(stream.speed / stream.pitch);
    s >= 4 && stream.pitch >= 0.5
}

// The samples of a job's stage. Beside `output_area`: one function of two sizes would be no shorter, and the
// definitions are two as well.
#[tactic(auto, unfolding(crate::specs::Plans::stage_area))]
fn stage_area(stream: SonicStream) -> usize
    ensures { result ≡ stage_area (is_small stream) }
{
    if is_small(stream) {
        SMALL_STAGE_AREA
    } else {
        STAGE_AREA
    }
}

// The samples of its output.
#[tactic(auto, unfolding(crate::specs::Plans::output_area))]
fn output_area(stream: SonicStream) -> usize
    ensures { result ≡ output_area (is_small stream) }
{
    if is_small(stream) {
        SMALL_OUTPUT_AREA
    } else {
        OUTPUT_AREA
    }
}

// The most frames that the stretch makes of each that it uses. A skip step makes fewer than it uses. An insert step of
// k frames makes period + k, where k is at least 1, and more than half of period·s/(1 − s) where that is 1 or more; s
// is speed/pitch. So it makes fewer than 2/s for each, and at most the period and one. s of a call is rounded, which
// 3/s leaves room for.
fn growth(speed: f32, pitch: f32, longest: usize) -> usize
    requires { longest ≤ longest_period }
    ensures { result ≡ growth_of speed pitch longest }
{
    let most = floats::casts::f32_to_usize(pitch / speed * 3.0);
    most.min(longest) + 1
}

// The frames that a write fills the input up to, at most three times `required`, of which fewer than `required` are
// left. A period that is shorter than speed/pitch − 1 gives no frame. Where the shortest might, a rounded speed counted
// in, a write is to take one step at the most: every step uses the shortest period or more, so that after one, fewer
// than `required` frames are left. Then a write that stalls makes no frame, and the frames held begin where it stalled;
// and of a write that passes over a period, the frames that leave the input are that period (`passed-alone` in
// stretch/proofs/OneStep.antt).
#[tactic(auto, unfolding(crate::specs::Plans::fill_to))]
fn fill_to(speed: f32, pitch: f32, shortest: usize, required: usize) -> usize
    requires { (1 ≤ shortest) × (shortest ≤ required) × (required ≤ scratch_area) }
    ensures { result ≡ fill_to speed pitch shortest required }
{
    let s = floats::casts::f32_to_usize(speed / pitch);
    if s >= shortest {
        required + (shortest - 1)
    } else {
        3 * required
    }
}

// The most frames that a call may hold so that what the stretch makes of them, behind the tail, is at most `room`
// frames.
fn held_within(room: usize, growth: usize) -> usize
    requires { 1 ≤ growth }
    ensures { result ≡ held_within room growth }
{
    room.saturating_sub(TAIL_FRAMES) / growth
}

// The stretched frames whose frames at the new rate the output has room for, behind fewer than a block. That a stream
// is in order stays a clause: C hands any stream value over, so that `SonicStream` has no ghost field.
fn output_room(stream: SonicStream) -> usize
    requires { is_in_order stream ≡ true }
    ensures { result ≡ output_room stream }
{
    let channels = stream.channels as usize;
    let rates = rate::rates_of(stream.rate, stream.pitch);
    let area = Samples(output_area(stream)).frames(channels).0;
    let block = Samples(BLOCK_SAMPLES).frames(channels).0;
    (area - 2 - block) * rates.old / rates.new
}

// The most frames held for which the growth is a bound. A call goes by a speed that is worked out from play time, which
// is rounded at each call. Above 2 the stretch only skips, and any will do.
fn held_most(stream: SonicStream) -> usize
    requires { is_in_order stream ≡ true }
    ensures { result ≡ held_most stream }
{
    let s = floats::casts::f32_to_usize(stream.speed / stream.pitch);
    if s >= 2 {
        INPUT_AREA
    } else {
        3 * period::max_required(stream.rate as usize).0
    }
}

// The most frames that a call may hold: no area is too small for them, nor for what is made of them.
fn limit(stream: SonicStream) -> Frames
    requires { is_in_order stream ≡ true }
    ensures { result.0 ≡ limit_of stream }
{
    let channels = stream.channels as usize;
    let held = held_most(stream);
    let longest = period::max_period(stream.rate as usize);
    let growth = growth(stream.speed, stream.pitch, longest);
    let staged = held_within(Samples(stage_area(stream)).frames(channels).0, growth);
    let made = held_within(output_room(stream), growth);
    let taken = Samples(INPUT_AREA).frames(channels).0;
    Frames(held.min(taken.min(staged.min(made))))
}

// The plan of a job that the areas serve.
fn plan_of(stream: SonicStream, limit: Frames) -> Plan
    requires in_order { is_in_order stream ≡ true }
    requires limit_is { limit.0 ≡ limit_of stream }
    requires is_served { served stream ≡ true }
    ensures { IsPlanOf stream result }
{
    let channels = stream.channels as usize;
    let rate = stream.rate as usize;
    let block = Samples(BLOCK_SAMPLES).frames(channels);
    let required = period::max_required(rate);
    let full = fill_to(
        stream.speed,
        stream.pitch,
        period::min_period(rate),
        required.0,
    );
    Plan {
        rate: stream.rate as u64,
        channels,
        block: block.samples(channels).0,
        full,
        required: required.0,
        limit: limit.0,
        small: is_small(stream),
    }
}

// The plan of a job, if three times `required` are no more than the limit: a write fills the input up to that at the
// most, and a flush adds two times `required` to fewer frames than `required`.
pub fn serve(stream: SonicStream) -> Option<Plan>
    requires { is_in_order stream ≡ true }
    ensures { IsServiceOf stream result }
{
    let limit = limit(stream);
    let required = period::max_required(stream.rate as usize);
    if limit.0 < 3 * required.0 {
        return None;
    }
    Some(plan_of(stream, limit))
}
