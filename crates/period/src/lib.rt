// The pitch period of the stretch. `rates`: what follows from the rate; `pitch`: the period that a step uses. `specs/`
// says what each function gives.
#![tactic(auto)]

mod pitch;
mod rates;

use frames::Frames;
pub use pitch::find_pitch_period;
pub use rates::{max_period, max_required, min_period};

// The period record: the period that the last search found and its least mean. Before the first the period is 0, and no
// `Option`: so the stream's own fields have it, which C keeps (`SonicStream`).
#[derive(Clone, Copy, Debug, PartialEq, Eq)]
pub struct PeriodRecord {
    pub period: usize,
    pub min_diff: usize,
}

// The period that a step uses, the record after its search, and the sum of differences of the period found.
#[derive(Clone, Copy, Debug, PartialEq, Eq)]
pub struct Chosen {
    pub period: Frames,
    pub prev: PeriodRecord,
    pub sum: usize,
}
