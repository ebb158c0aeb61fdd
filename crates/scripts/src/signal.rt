// Samples to write, made from a few numbers: silence, noise, voices, and bit patterns.
ghost use Rattle.std.specs.Prelude.{◌≡◌, ◌+◌, ◌*◌, ◌%◌, ◌^◌, ◌<◌, ◌≤◌};
ghost use Rattle.scripts.specs.Kinds.{kind_of};

use crate::sums::{float, word};
use crate::text::Line;

// The kinds of signal.
#[derive(Clone, Copy, Debug, PartialEq, Eq)]
pub enum Kind {
    Silence,
    Noise,
    Square,
    Triangle,
    // A triangle with noise.
    Voice,
    // A triangle in the even samples, a square of a longer period in the odd ones.
    TwoVoices,
    // The states of the noise as bits of an f32.
    Patterns,
}

// The kind with a number: docs/VECTORS.md has them. Any other is silence.
impl From<u64> for Kind {
    ghost from_gives = { λ number kind. kind ≡ kind_of number };

    fn from(number: u64) -> Kind {
        match number {
            1 => Kind::Noise,
            2 => Kind::Square,
            3 => Kind::Triangle,
            4 => Kind::Voice,
            5 => Kind::TwoVoices,
            6 => Kind::Patterns,
            _ => Kind::Silence,
        }
    }
}

// What the second of two voices has more in its period, in samples.
const LONGER: u64 = 14;

// The level of silence; levels go from 0 to 65,535.
const MIDDLE: u16 = 32768;

const HIGH: u16 = 52768;

const LOW: u16 = 12768;

// A signal: its kind, the noise's first state and the voice's first place, the voice's period in samples, and the
// divisor of its levels.
#[derive(Clone, Copy)]
pub struct Signal {
    pub kind: Kind,
    pub seed: u32,
    pub period: u32,
    pub divisor: u16,
}

// The signal of a write's line.
pub fn signal_of(line: Line) -> Signal {
    let [kind, seed, period, divisor, _] = line.numbers;
    Signal {
        kind: Kind::from(kind),
        seed: word(seed),
        period: word(period),
        divisor: (divisor % 65536) as u16,
    }
}

// The state of the noise after a state.
fn stepped(state: u32) -> u32
    ensures { result ≡ (state * 1664525 + 1013904223) % 2 ^ 32 }
{
    word(state as u64 * 1_664_525 + 1_013_904_223)
}

// The level of the noise at a state.
fn noise(state: u32) -> u16 {
    (state / 65536) as u16
}

// High in the first half of the period, low in the second. `sample` holds the period to 1 or more: a type for that
// would be longer than these clauses.
fn square(place: u64, period: u64) -> u16
    requires { 0 < period }
{
    if place % period < period / 2 {
        HIGH
    } else {
        LOW
    }
}

// Up to the middle of the period and down again.
fn triangle(place: u64, period: u64) -> u16
    requires { (0 < period) × (period ≤ 4294967296) }
{
    let phase = place % period;
    let way = phase.min(period - phase);
    (way * 131_070 / period % 65536) as u16
}

// Three quarters of a level, and noise.
fn voice(level: u16, state: u32) -> u16 {
    (level as u32 * 3 / 4 + state / 0x4_0000) as u16
}

// The level of a signal at a place. Patterns have none.
fn level(kind: Kind, state: u32, place: u64, period: u64) -> u16
    requires { (0 < period) × (period ≤ 4294967296) }
{
    match kind {
        Kind::Noise => noise(state),
        Kind::Square => square(place, period),
        Kind::Triangle => triangle(place, period),
        Kind::Voice => voice(triangle(place, period), state),
        Kind::TwoVoices => {
            if place % 2 == 0 {
                triangle(place, period)
            } else {
                square(place, period + LONGER)
            }
        }
        Kind::Silence | Kind::Patterns => MIDDLE,
    }
}

// A signal's sample at a place.
fn sample(signal: Signal, state: u32, place: u64) -> f32 {
    if signal.kind == Kind::Patterns {
        return float(state);
    }
    let period = signal.period.max(1) as u64;
    (level(signal.kind, state, place, period) as f32 - 32768.0) / signal.divisor as f32
}

// Fills a slice with a signal.
pub fn fill(signal: Signal, samples: &mut [f32]) {
    let mut state = signal.seed;
    let mut place = signal.seed as u64;
    for x in samples.iter_mut() {
        state = stepped(state);
        *x = sample(signal, state, place);
        place = place.wrapping_add(1);
    }
}
