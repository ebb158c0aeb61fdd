// Crossfades: `overlap_add`, and the frames that copy, skip or insert a pitch period. `specs/Crossfade.antt` says what
// each function gives.
#![tactic(auto)]

mod crossfades;
mod periods;

pub use crossfades::overlap_add;
pub use periods::{copy_unmodified_samples, insert_pitch_period, skip_pitch_period};
