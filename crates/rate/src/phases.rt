// The phases at which the frames of a call are made, and after how many frames they come again.
ghost use Rattle.std.specs.Prelude.{◌/◌, ◌≤◌};
ghost use Rattle.rate.specs.Halving.{max_halved_rate};
ghost use Rattle.rate.specs.Phases.{CycleOf};

use crate::Rates;
use frames::Frames;
use sinc::SINC_FILTER_POINTS;
use sinc::phases::MAX_PHASES;

// A cycle: `old` tail frames make `new` frames, each at a phase of its own, and then the phases come again. N is
// step·new and O is step·old.
#[derive(Clone, Copy, Debug, PartialEq, Eq)]
pub(crate) struct Cycle {
    pub step: usize,
    pub new: usize,
    pub old: usize,
}

// A common divisor of N and O: the greatest if it leaves at most 32 phases, else 1. By Euclid's steps; a remainder
// above 0 that leaves more phases ends them, as no divisor exceeds it.
fn common_step(rates: Rates) -> usize
    requires { (rates.new ≤ max_halved_rate) × (1 ≤ rates.old) × (rates.old ≤ max_halved_rate) }
    ensures { CycleOf rates (record { step = result; new = rates.new / result; old = rates.old / result }) }
{
    let new_rate = rates.new;
    let mut a = new_rate;
    let mut b = rates.old;
    while b > 0 {
        if b * MAX_PHASES < new_rate {
            return 1;
        }
        let rest = a % b;
        a = b;
        b = rest;
    }
    a
}

// The cycle of a call that scans a tail of this many frames. Its step is 1, so that no coefficients are kept, unless
// the scan comes to each phase twice. One that consumes a single frame does not, and takes no division.
pub(crate) fn cycle_of(rates: Rates, tail: Frames) -> Cycle
    requires { (rates.new ≤ max_halved_rate) × (1 ≤ rates.old) × (rates.old ≤ max_halved_rate) }
    ensures { CycleOf rates result }
{
    let t = tail.0;
    if t >= 2 + SINC_FILTER_POINTS {
        let step = common_step(rates);
        let old = rates.old / step;
        if t >= 2 * old + SINC_FILTER_POINTS {
            let new = rates.new / step;
            return Cycle { step, new, old };
        }
    }
    // the phases are the ratios themselves
    Cycle {
        step: 1,
        new: rates.new,
        old: rates.old,
    }
}
