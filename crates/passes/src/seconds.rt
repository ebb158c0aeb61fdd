// The time of frames, as a text in seconds with three digits behind the point.
ghost use Rattle.std.specs.Prelude.{◌≡◌, ◌*◌, ◌/◌, ◌%◌, ◌≤◌};

use std::fmt;

// Whole seconds, and the thousandths behind them.
#[derive(Clone, Copy, Debug, PartialEq, Eq)]
pub struct Seconds {
    pub whole: u64,
    pub thousandths: u64,
}

impl Seconds {
    // The time of so many frames. What is less than a thousandth is cut off.
    pub fn of(frames: u64, rate: u64) -> Seconds
        requires { (1 ≤ rate) × (rate ≤ 500000) }
        ensures { (result.whole ≡ frames / rate) × (result.thousandths ≡ frames % rate * 1000 / rate) }
    {
        Seconds {
            whole: frames / rate,
            thousandths: frames % rate * 1000 / rate,
        }
    }
}

impl fmt::Display for Seconds {
    fn fmt<W: fmt::Write>(&self, f: &mut fmt::Formatter<W>) -> fmt::Result {
        write!(f, "{}.{:03}", self.whole, self.thousandths)
    }
}
