// Refusal 3: whether a stream value is in order. Play time, time error and counts are free.
ghost use Rattle.std.specs.Prelude.{◌≡◌, true};
ghost use Rattle.period.specs.Rates.{InLimits};
ghost use Rattle.rate.specs.Halving.{rates_of};
ghost use Rattle.stream.specs.Refusals.{rate_bad, channels_bad, limits_in_order, settings_in_order};
ghost use Rattle.stream.specs.Refusals.{prev_in_order, positions_in_order};
ghost use Rattle.stream.specs.Order.{order_of};

use crate::SonicStream;
use rate::Rates;

// Refusal 1 of an opening: whether no stream takes this rate. One for each of the refusals 1 and 2, as docs/RULES.md
// numbers them.
#[tactic(auto, unfolding(crate::specs::Refusals::rate_bad))]
pub fn rate_bad(rate: u32) -> bool
    ensures { result ≡ rate_bad rate }
{
    !(SonicStream::MIN_RATE..=SonicStream::MAX_RATE).contains(&rate)
}

// Refusal 2 of an opening: whether no stream takes so many channels.
#[tactic(auto, unfolding(crate::specs::Refusals::channels_bad))]
pub fn channels_bad(channels: u32) -> bool
    ensures { result ≡ channels_bad channels }
{
    !(SonicStream::MIN_CHANNELS..=SonicStream::MAX_CHANNELS).contains(&channels)
}

// Whether rate and channels are in range.
#[tactic(auto, unfolding(crate::specs::Refusals::limits_in_order))]
fn limits_in_order(stream: SonicStream) -> bool
    ensures { result ≡ limits_in_order stream }
{
    !rate_bad(stream.rate) && !channels_bad(stream.channels)
}

// Whether speed, pitch and volume are in their ranges. A NaN is not.
#[tactic(auto, unfolding(crate::specs::Refusals::settings_in_order))]
fn settings_in_order(stream: SonicStream) -> bool
    ensures { result ≡ settings_in_order stream }
{
    (SonicStream::MIN_SPEED..=SonicStream::MAX_SPEED).contains(&stream.speed)
        && (SonicStream::MIN_PITCH..=SonicStream::MAX_PITCH).contains(&stream.pitch)
        && (SonicStream::MIN_VOLUME..=SonicStream::MAX_VOLUME).contains(&stream.volume)
}

// Whether the previous period is 0 or in the range of the rate, and the previous least mean one of 16-bit differences.
#[tactic(auto, unfolding(crate::specs::Refusals::prev_in_order))]
fn prev_in_order(stream: SonicStream) -> bool
    ensures { result ≡ prev_in_order stream }
{
    let rate = stream.rate as usize;
    let period = stream.prev_period;
    (period == 0 || (period::min_period(rate)..=period::max_period(rate)).contains(&period))
        && stream.prev_min_diff <= SonicStream::MAX_MIN_DIFF
}

// Whether p is below O and n the least whole number with n·O at least p·N: for p = 0, whether n is 0.
fn positions_in_order(stream: SonicStream) -> bool
    requires { InLimits stream.rate stream.channels × (settings_in_order stream ≡ true) }
    ensures { result ≡ positions_in_order (rates_of stream.rate stream.pitch) stream }
{
    let position = stream.old_rate_position;
    if position == 0 {
        return stream.new_rate_position == 0;
    }
    let Rates { new, old } = rate::rates_of(stream.rate, stream.pitch);
    position < old && stream.new_rate_position == (position * new).div_ceil(old)
}

impl SonicStream {
    // The sample period that the rate gives, of a stream in order. A call computes T here and nowhere else.
    pub fn ordered(self) -> Option<f32>
        ensures { result ≡ order_of self }
    {
        if !limits_in_order(self) {
            return None;
        }
        let period = floats::settings::sample_period(self.rate);
        let in_order = self.sample_period == period
            && settings_in_order(self)
            && prev_in_order(self)
            && positions_in_order(self);
        in_order.then_some(period)
    }
}
