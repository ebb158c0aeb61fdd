// Rate conversion: `adjust_rate` of the Rust original. `specs/Conversion.antt` says what it gives.
#![tactic(auto)]

mod phases;
mod scan;

ghost use Rattle.std.specs.Prelude.{◌≡◌, ◌^◌, ◌≤◌};
ghost use Rattle.rate.specs.Halving.{rates_of};
ghost use Rattle.rate.specs.Adjusting.{AdjustReady, AdjustEnsures};

use frames::Frames;
use sinc::table::SincTable;

// The most that either of the two rates may be.
const MAX_HALVED_RATE: usize = 16384;

// N and O: the new rate and the old one.
#[derive(Clone, Copy, Debug, PartialEq, Eq)]
pub struct Rates {
    pub new: usize,
    pub old: usize,
}

// p and n: the positions in old frames and in new ones.
#[derive(Clone, Copy, Debug, PartialEq, Eq)]
pub struct Position {
    pub old: usize,
    pub new: usize,
}

// The frames made; the tail that is left, `left` frames of the stage from `from` on; the positions.
#[derive(Clone, Copy)]
pub struct Adjusted {
    pub made: Frames,
    pub from: Frames,
    pub left: Frames,
    pub at: Position,
}

// N and O of a rate in Hz and a pitch. A `while`: both are halved, and nothing is counted.
pub fn rates_of(rate: u32, pitch: f32) -> Rates
    requires { rate ≤ 2 ^ 24 }
    ensures { result ≡ rates_of rate pitch }
{
    let mut new = floats::scales::new_rate(rate, pitch);
    let mut old = rate as usize;
    while new > MAX_HALVED_RATE || old > MAX_HALVED_RATE {
        new = new / 2;
        old = old / 2;
    }
    Rates { new, old }
}

// The new frames of the stage, which stand behind its tail, at another pitch than 1.0: behind the frames waiting in the
// output. None if they do not fit there. Stage and output stay apart from what is counted in them, as they are lent.
pub fn adjust_rate(
    stage: &[i16],
    tail: Frames,
    new: Frames,
    channels: usize,
    rate: u32,
    pitch: f32,
    at: Position,
    output: &mut [i16],
    waiting: Frames,
) -> Option<Adjusted>
    requires { AdjustReady channels rate pitch at tail.0 new.0 waiting.0 stage.now output.old }
    ensures { AdjustEnsures channels rate pitch at tail.0 new.0 waiting.0 stage.now
        output.old output.new result }
{
    let t = tail.0;
    let n = new.0;
    if n == 0 {
        return Some(Adjusted {
            made: Frames(0),
            from: Frames(0),
            left: tail,
            at,
        });
    }
    let table = sinc::sinc_table();
    scan::convert_tail(
        SincTable { entries: &table },
        stage,
        Frames(t + n),
        channels,
        rates_of(rate, pitch),
        at,
        output,
        waiting,
    )
}
