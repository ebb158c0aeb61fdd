// The stream's value with its constants, and the calls that are lent no area: opening, settings, the frames available.
// `specs/Settings.antt` says what each answers. `areas` has refusals 4 and 5, and `balance` refusal 12,
// for the calls that are lent areas.
#![tactic(auto)]

pub mod areas;
mod balance;
mod order;
pub mod refusal;
mod settings;

ghost use Rattle.std.specs.Prelude.{◌≡◌};
ghost use Rattle.stream.specs.Stream.{zero_stream};
ghost use Rattle.stream.specs.Settings.{open_call};
ghost use Rattle.search.specs.declared.Ties.TheVariants.{Smallest};

pub use balance::Balance;
use frames::Frames;
pub use order::{channels_bad, rate_bad};
pub use refusal::{NotOpened, Refusal, Refused};
pub use search::Ties;

// The stream's value, as C has it too. Its samples are in the areas that each call is lent.
#[repr(C)]
#[derive(Clone, Copy)]
pub struct SonicStream {
    pub rate: u32,
    pub channels: u32,
    pub speed: f32,
    pub pitch: f32,
    pub volume: f32,
    pub sample_period: f32,
    pub input_play_time: f32,
    pub time_error: f32,
    pub old_rate_position: usize,
    pub new_rate_position: usize,
    pub prev_period: usize,
    pub prev_min_diff: usize,
    pub held: Frames,
    pub tail: Frames,
    pub waiting: Frames,
    pub balance: Balance,
    // Off if 0. A caller of C may put any number here.
    pub step_over: u32,
    // Of several periods with the same mean 0 finds the smallest, any other number the largest.
    pub ties: u32,
}

// One setting with its value.
#[derive(Clone, Copy)]
pub enum Setting {
    Speed(f32),
    Pitch(f32),
    Volume(f32),
    StepOver(bool),
}

impl SonicStream {
    // Rates, in Hz.
    pub const MIN_RATE: u32 = 1000;

    pub const MAX_RATE: u32 = 500_000;

    pub const MIN_CHANNELS: u32 = 1;

    pub const MAX_CHANNELS: u32 = 32;

    pub const MIN_SPEED: f32 = 0.05;

    pub const MAX_SPEED: f32 = 20.0;

    pub const MIN_PITCH: f32 = 0.05;

    pub const MAX_PITCH: f32 = 20.0;

    pub const MIN_VOLUME: f32 = 0.01;

    pub const MAX_VOLUME: f32 = 100.0;

    // The greatest mean of 16-bit differences.
    pub const MAX_MIN_DIFF: usize = 65535;

    // The most samples that an area may have.
    pub const MAX_AREA: usize = 16_777_216;

    // Fresh values: of a setting, and of a position. All other fields that do not follow from the opening are 0.
    pub const FRESH_SETTING: f32 = 1.0;

    pub const FRESH_POSITION: usize = 0;

    // Every field 0: the stream that a refused opening carries.
    const ZERO: SonicStream = SonicStream {
        rate: 0,
        channels: 0,
        speed: 0.0,
        pitch: 0.0,
        volume: 0.0,
        sample_period: 0.0,
        input_play_time: 0.0,
        time_error: 0.0,
        old_rate_position: 0,
        new_rate_position: 0,
        prev_period: 0,
        prev_min_diff: 0,
        held: Frames(0),
        tail: Frames(0),
        waiting: Frames(0),
        balance: Balance::NONE,
        step_over: 0,
        ties: 0,
    };

    // Opens a stream that finds the smallest of several periods with the same mean: refusals 1 and 2.
    pub fn new(rate: u32, channels: u32) -> Result<SonicStream, NotOpened>
        ensures { result ≡ open_call rate channels Smallest }
    {
        SonicStream::with_ties(rate, channels, Ties::Smallest)
    }

    // Opens a stream with a choice of ties: refusals 1 and 2. Rate and channels as C and docs/RULES.md have them.
    pub fn with_ties(rate: u32, channels: u32, ties: Ties) -> Result<SonicStream, NotOpened>
        ensures { result ≡ open_call rate channels ties }
    {
        if rate_bad(rate) {
            return Err(NotOpened {
                refusal: Refusal::BadRate,
                given: rate,
                stream: SonicStream::ZERO,
            });
        }
        if channels_bad(channels) {
            return Err(NotOpened {
                refusal: Refusal::BadChannels,
                given: channels,
                stream: SonicStream::ZERO,
            });
        }
        Ok(SonicStream {
            rate,
            channels,
            speed: SonicStream::FRESH_SETTING,
            pitch: SonicStream::FRESH_SETTING,
            volume: SonicStream::FRESH_SETTING,
            sample_period: floats::settings::sample_period(rate),
            ties: u32::from(ties),
            ..SonicStream::ZERO
        })
    }
}
