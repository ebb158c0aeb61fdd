// A call: step after step.
ghost use Rattle.std.specs.Prelude.{◌≡◌, ◌+◌, ◌*◌, ◌^◌, ◌≤◌, length};
ghost use Rattle.period.specs.Rates.{max_required};
ghost use Rattle.period.specs.Pitch.{PrevInOrder};
ghost use Rattle.stretch.specs.Speed.{change_speed, begun, answer, AreaAfter};

use crate::steps::take_step;
use crate::{Place, ReadyCall, Stretch, Target};
use frames::Frames;
use period::PeriodRecord;

// A call's answer, with the sum, the time error and the period record of a place. Field by field: a place's position is
// `used` only where no step stalled.
fn answer(made: Frames, used: Frames, passed: usize, place: Place, stalled: bool) -> Stretch
    ensures { result ≡ answer made.0 used.0 passed place stalled }
{
    Stretch {
        made,
        used,
        passed,
        sum: place.sum,
        time_error: place.time_error,
        prev: place.prev,
        stalled,
    }
}

// The stretch of the frames held: step after step until too few frames are left, one stalls, or more frames are made
// than the target may take: then there is no answer. What is made behind the target's room is counted, and not written.
pub fn change_speed(
    input: &[i16],
    ready: ReadyCall,
    time_error: f32,
    prev: PeriodRecord,
    area: &mut [i16],
    target: Target,
    scratch: &mut [i16],
) -> Option<Stretch>
    requires prev_in_order { PrevInOrder ready.call.rate prev }
    requires held_lent { ready.call.held.0 * ready.call.channels ≤ length input.now }
    requires scratch_fits { max_required ready.call.rate ≤ length scratch.old }
    requires target_fits { target.to.0 + target.room.0 * ready.call.channels ≤ length area.old }
    requires few { target.most.0 ≤ 2 ^ 24 }
    ensures { (result ≡ change_speed ready.call input.now (begun time_error prev) target.most.0)
        × AreaAfter ready.call input.now (begun time_error prev) target.room.0 target.most.0
        area.old area.new target.to.0 }
{
    let required = period::max_required(ready.call.rate).0;
    let held = ready.call.held.0;
    let mut place = Place {
        position: Frames(0),
        time_error,
        prev,
        sum: 0,
    };
    let mut made: usize = 0;
    let mut passed: usize = 0;
    // No counted loop: each turn moves the place by the frames that its step uses.
    while place.position.0 + required <= held {
        let went = take_step(input, ready, place, area, target, Frames(made), scratch)?;
        made += went.frames.0;
        passed += went.passed;
        place = went.place;
        if went.stalled {
            return Some(answer(Frames(made), Frames(0), passed, place, true));
        }
    }
    Some(answer(Frames(made), place.position, passed, place, false))
}
