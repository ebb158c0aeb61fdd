// What follows from the rate: the range of periods, the frames that a search looks at, the frames that one average
// takes.
ghost use Rattle.std.specs.Prelude.{◌≡◌};
ghost use Rattle.period.specs.Rates.{min_period, max_period, max_required, skip};

use frames::Frames;

// The lowest pitch looked for, in Hz.
const MIN_PITCH_HZ: usize = 65;

// The highest pitch looked for, in Hz.
const MAX_PITCH_HZ: usize = 400;

// The rate that the averages of the first search come near, in Hz.
const AMDF_FREQ: usize = 4000;

// The shortest period, in frames. Beside `max_period`: docs/RULES.md has two names.
pub fn min_period(rate: usize) -> usize
    ensures { result ≡ min_period rate }
{
    rate / MAX_PITCH_HZ
}

// The longest period, in frames.
pub fn max_period(rate: usize) -> usize
    ensures { result ≡ max_period rate }
{
    rate / MIN_PITCH_HZ
}

// The frames that a search looks at.
pub fn max_required(rate: usize) -> Frames
    ensures { result.0 ≡ max_required rate }
{
    Frames(2 * max_period(rate))
}

// The frames that one average takes. By two cases, as its definition has it (docs/RULES.md).
pub(crate) fn skip(rate: usize) -> usize
    ensures { result ≡ skip rate }
{
    if AMDF_FREQ < rate {
        rate / AMDF_FREQ
    } else {
        1
    }
}
