// The areas' sizes, and the jobs that they serve: those of which no call wants more room. `specs/Plans.antt` says what
// is answered; that no call of a job served is refused, but for a total past 64 bits, is proved in the crate `serving`.
#![tactic(auto)]

ghost use Rattle.std.specs.Prelude.{◌≡◌, ◌*◌, ◌≤◌};
ghost use Rattle.period.specs.Rates.{InLimits};
ghost use Rattle.plans.specs.declared.TheConstants.{INPUT_AREA, BLOCK_SAMPLES};

mod service;

pub use service::serve;

// The samples of each area. They serve 16,000 Hz in one channel at every speed and pitch, and 44,100 Hz in two at every
// speed.
pub const INPUT_AREA: usize = 196_608;

pub const STAGE_AREA: usize = 1_048_576;

pub const OUTPUT_AREA: usize = 1_048_576;

// Those of a small job, which hold what it makes of a full input. A run sets its areas to zero when it begins, so that
// shorter ones make a shorter start.
pub const SMALL_STAGE_AREA: usize = 196_992;

pub const SMALL_OUTPUT_AREA: usize = 409_600;

// What a search at 500,000 Hz looks at.
pub const SCRATCH_AREA: usize = 15_384;

// The samples of a block, which is read or written out at a time, and its bytes.
pub const BLOCK_SAMPLES: usize = 4_096;

pub const BLOCK_BYTES: usize = 8_192;

// How a job is done: its rate and channels, the samples of a block in whole frames, the frames that a write fills the
// input up to, the frames that a search looks at, the most frames that a call may hold, and whether the job is small.
// Every plan is usable: the areas serve its job.
#[derive(Clone, Copy, Debug, PartialEq, Eq)]
pub struct Plan {
    pub rate: u64,
    pub channels: usize,
    pub block: usize,
    pub full: usize,
    pub required: usize,
    pub limit: usize,
    pub small: bool,
    pub ghost limits: { InLimits rate channels },
    pub ghost block_fits: { block ≤ BLOCK_SAMPLES },
    pub ghost required_some: { 1 ≤ required },
    pub ghost full_fits: { full ≤ 3 * required },
    pub ghost calls_fit: { 3 * required ≤ limit },
    pub ghost limit_fits: { limit ≤ INPUT_AREA },
}

// The rate and the channels of a plan: those of a stream's opening, in their limits.
#[derive(Clone, Copy, Debug, PartialEq, Eq)]
pub struct Opening {
    pub rate: u64,
    pub channels: usize,
    pub ghost limits: { InLimits rate channels },
}

impl Plan {
    pub fn opening(self) -> Opening
        ensures rate_is { result.rate ≡ self.rate }
        ensures channels_is { result.channels ≡ self.channels }
    {
        Opening {
            rate: self.rate,
            channels: self.channels,
        }
    }
}
