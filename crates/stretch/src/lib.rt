// The stretch: steps that copy, skip, insert or pass over pitch periods, and `change_speed` that takes them. `specs/`
// says what each function gives.
#![tactic(auto)]

mod samples;
mod speed;
mod steps;

ghost use Rattle.std.specs.Prelude.{◌≡◌, ◌≤◌, ◌^◌};
ghost use Rattle.stretch.specs.Steps.{StretchReady};

use frames::{Frames, Samples};
use period::PeriodRecord;
use search::Ties;
pub use speed::change_speed;

// What is fixed for a call: what follows from the opening, the local speed, the play time, the frames held, whether it
// steps over a period that gives no frame, and which of several periods with the same mean its searches find. The
// definitions speak of the call of any state, so that its facts stand in `ReadyCall`.
#[derive(Clone, Copy, Debug, PartialEq)]
pub struct StretchCall {
    pub channels: usize,
    pub rate: usize,
    pub sample_period: f32,
    pub speed: f32,
    pub input_play_time: f32,
    pub held: Frames,
    pub step_over: bool,
    pub ties: Ties,
}

// A call that is ready: opened, with the period of a sample that its rate gives, and few frames. The slices stay beside
// it, each with its clause: the areas are lent apart.
#[derive(Clone, Copy, Debug, PartialEq)]
pub struct ReadyCall {
    pub call: StretchCall,
    pub ghost ready: { StretchReady call },
}

// Where a call has come to: the frames used, the time error, the period record, and the sum of differences that its
// last search found, 0 before the first. That the record is in order hangs on the call's rate, which a place does not
// hold, so it stays a clause (`PrevInOrder`). No Option for the sum: C's answer and `Told` of fill have 0.
#[derive(Clone, Copy, Debug, PartialEq)]
pub struct Place {
    pub position: Frames,
    pub time_error: f32,
    pub prev: PeriodRecord,
    pub sum: usize,
}

// A step: the frames copied; the period skipped and the frames made; the period inserted and the frames made behind it;
// the period passed over.
#[derive(Clone, Copy, Debug, PartialEq, Eq)]
pub enum Step {
    Copied(Frames),
    Skipped(Frames, Frames),
    Inserted(Frames, Frames),
    Passed(Frames),
}

impl Step {
    ghost use Rattle.stretch.specs.Steps.{frames_out, frames_used, periods_passed, stalls};

    // The frames that a step gives.
    fn frames_out(self) -> Frames
        requires { frames_out self ≤ 2 ^ 24 }
        ensures { result.0 ≡ frames_out self }
    {
        match self {
            Step::Copied(n) | Step::Skipped(_, n) => n,
            Step::Inserted(period, k) => Frames(period.0 + k.0),
            Step::Passed(_) => Frames(0),
        }
    }

    // The frames of the input that it uses.
    fn frames_used(self) -> Frames
        requires { frames_used self ≤ 2 ^ 24 }
        ensures { result.0 ≡ frames_used self }
    {
        match self {
            Step::Copied(n) | Step::Inserted(_, n) | Step::Passed(n) => n,
            Step::Skipped(period, k) => Frames(period.0 + k.0),
        }
    }

    // The periods that it passes over.
    fn periods_passed(self) -> usize
        ensures { result ≡ periods_passed self }
    {
        match self {
            Step::Passed(_) => 1,
            _ => 0,
        }
    }

    // Whether it ends the call as stalled.
    fn stalls(self) -> bool
        ensures { result ≡ stalls self }
    {
        match self {
            Step::Skipped(_, k) => k.0 == 0,
            _ => false,
        }
    }
}

// The step that is due, and the period record and the sum of the last search after it.
#[derive(Clone, Copy, Debug, PartialEq, Eq)]
pub struct NextStep {
    pub step: Step,
    pub prev: PeriodRecord,
    pub sum: usize,
}

// Where the frames of a call go: to the place `to` of an area, which has room for `room` frames there; no more than
// `most` may be made.
#[derive(Clone, Copy, Debug, PartialEq, Eq)]
pub struct Target {
    pub to: Samples,
    pub room: Frames,
    pub most: Frames,
}

// What one turn of a call came to: the place after it, its frames, the periods that it passes over, and whether it
// stalls.
#[derive(Clone, Copy, Debug, PartialEq)]
pub struct Went {
    pub place: Place,
    pub frames: Frames,
    pub passed: usize,
    pub stalled: bool,
}

// What a call gives: the frames made, the frames of the input used, the periods passed over, the sum of its last
// search, the time error and the period record after it, whether it stalled.
#[derive(Clone, Copy, Debug, PartialEq)]
pub struct Stretch {
    pub made: Frames,
    pub used: Frames,
    pub passed: usize,
    pub sum: usize,
    pub time_error: f32,
    pub prev: PeriodRecord,
    pub stalled: bool,
}
