// One turn of a call: the step that is due at a place, and the place after it.
ghost use Rattle.std.specs.Prelude.{◌≡◌, ◌+◌, ◌*◌, ◌≤◌, ◌<◌, ◌^◌, length};
ghost use Rattle.period.specs.Rates.{max_required};
ghost use Rattle.period.specs.Pitch.{InRange, PrevInOrder};
ghost use Rattle.stretch.specs.Steps.{search_at, skip_step, period_step, next_step, frames_read, error_after};
ghost use Rattle.stretch.specs.Steps.{prev_after, sum_after, place_after, turn_for, area_for, Sound};

use crate::{NextStep, Place, ReadyCall, Step, StretchCall, Target, Went};
use frames::Frames;
use period::{Chosen, PeriodRecord};

// The period that a step at a place of the input uses, with the period record after the search and its sum.
fn search_at(input: &[i16], ready: ReadyCall, place: Place, scratch: &mut [i16]) -> Chosen
    requires prev_in_order { PrevInOrder ready.call.rate place.prev }
    requires input_lent { (place.position.0 + max_required ready.call.rate) * ready.call.channels ≤ length input.now }
    requires scratch_fits { max_required ready.call.rate ≤ length scratch.old }
    ensures value { result ≡ search_at ready.call input.now place }
    ensures in_range { InRange ready.call.rate result.period.0 }
    ensures prev_in_order { PrevInOrder ready.call.rate result.prev }
{
    let call = ready.call;
    let from = place.position.samples(call.channels).0;
    period::find_pitch_period(
        &input[from..],
        call.channels,
        call.rate,
        place.prev,
        call.ties,
        scratch,
    )
}

// The skip step of a period that gives k frames. Stepping over, one that gives none passes over its period.
fn skip_step(step_over: bool, period: Frames, k: Frames) -> Step
    ensures { result ≡ skip_step step_over period k }
{
    if step_over && k.0 == 0 {
        Step::Passed(period)
    } else {
        Step::Skipped(period, k)
    }
}

// The step of a period at local speed s.
fn period_step(s: f32, step_over: bool, period: Frames) -> Step
    requires { (1 ≤ period.0) × (period.0 < 2 ^ 24) }
    ensures { result ≡ period_step s step_over period }
{
    if s > 1.0 {
        let k = floats::steps::skip_count(s, period);
        return skip_step(step_over, period, k);
    }
    let k = floats::steps::insert_count(s, period);
    Step::Inserted(period, k)
}

// The step that is due at a place, and the period record and the sum of the last search after it.
fn next_step(input: &[i16], ready: ReadyCall, place: Place, scratch: &mut [i16]) -> NextStep
    requires prev_in_order { PrevInOrder ready.call.rate place.prev }
    requires due { place.position.0 + max_required ready.call.rate ≤ ready.call.held.0 }
    requires held_lent { ready.call.held.0 * ready.call.channels ≤ length input.now }
    requires scratch_fits { max_required ready.call.rate ≤ length scratch.old }
    ensures step { result.step ≡ next_step ready.call input.now place }
    ensures prev { result.prev ≡ prev_after ready.call input.now place (next_step ready.call input.now place) }
    ensures sum { result.sum ≡ sum_after ready.call input.now place (next_step ready.call input.now place) }
    ensures prev_in_order { PrevInOrder ready.call.rate result.prev }
{
    let call = ready.call;
    let s = call.speed;
    let error = place.time_error;
    if floats::steps::copying_due(s, error) {
        let left = Frames(call.held.0 - place.position.0);
        return NextStep {
            step: Step::Copied(floats::steps::copy_count(error, s, call.sample_period, left)),
            prev: place.prev,
            sum: place.sum,
        };
    }
    let chosen = search_at(input, ready, place, scratch);
    NextStep {
        step: period_step(s, call.step_over, chosen.period),
        prev: chosen.prev,
        sum: chosen.sum,
    }
}

// The time error after a step.
fn error_after(call: StretchCall, error: f32, step: Step) -> f32
    requires few_read { frames_read step ≤ 2 ^ 24 }
    requires few_held { call.held.0 ≤ 2 ^ 24 }
    ensures { result ≡ error_after call error step }
{
    let s = call.speed;
    let t = call.sample_period;
    let play = call.input_play_time;
    let held = call.held;
    match step {
        Step::Copied(n) => floats::steps::error_copied(error, s, t, n),
        Step::Skipped(period, k) => {
            floats::steps::error_skipped(error, s, t, play, held, period, k)
        }
        Step::Inserted(period, k) => {
            floats::steps::error_inserted(error, s, t, play, held, period, k)
        }
        Step::Passed(_) => error,
    }
}

// The place after a step, with the period record and the sum after it.
fn place_after(call: StretchCall, place: Place, next: NextStep) -> Place
    requires sound { Sound call.held.0 place.position.0 next.step }
    requires few_held { call.held.0 ≤ 2 ^ 24 }
    ensures { result ≡ place_after call place next.step next.prev next.sum }
{
    let position = place.position.0 + next.step.frames_used().0;
    Place {
        position: Frames(position),
        time_error: error_after(call, place.time_error, next.step),
        prev: next.prev,
        sum: next.sum,
    }
}

// One turn of a call that has made `made` frames: the step that is due, unless more are made with it than the target
// may take. Its frames go behind those made, which stand at the target, if there is room for all of them there; else
// they are only counted.
pub(crate) fn take_step(
    input: &[i16],
    ready: ReadyCall,
    place: Place,
    area: &mut [i16],
    target: Target,
    made: Frames,
    scratch: &mut [i16],
) -> Option<Went>
    requires prev_in_order { PrevInOrder ready.call.rate place.prev }
    requires due { place.position.0 + max_required ready.call.rate ≤ ready.call.held.0 }
    requires held_lent { ready.call.held.0 * ready.call.channels ≤ length input.now }
    requires scratch_fits { max_required ready.call.rate ≤ length scratch.old }
    requires target_fits { target.to.0 + target.room.0 * ready.call.channels ≤ length area.old }
    requires few_made { made.0 ≤ 2 ^ 24 }
    ensures value { result ≡ turn_for ready.call input.now place made.0 target.most.0
        (next_step ready.call input.now place) }
    ensures area { area.new ≡ area_for ready.call input.now place made.0 target.room.0 target.most.0 area.old
        target.to.0 (next_step ready.call input.now place) }
    ensures prev_in_order { PrevInOrder ready.call.rate (prev_after ready.call input.now place
        (next_step ready.call input.now place)) }
{
    let due = next_step(input, ready, place, scratch);
    let step = due.step;
    let n = step.frames_out();
    if target.most.0 < made.0 + n.0 {
        return None;
    }
    crate::samples::write_fitting(
        step,
        n,
        input,
        ready.call.channels,
        place.position,
        area,
        target,
        made,
    );
    Some(Went {
        place: place_after(ready.call, place, due),
        frames: n,
        passed: step.periods_passed(),
        stalled: step.stalls(),
    })
}
