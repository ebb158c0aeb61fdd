// The Sonic speech stretcher over lent areas: the stream with `new`, `with_ties`, `set` and `available_frames`
// (`stream`), and its calls that are lent areas, `write_f32` and `write_i16` (`write`), `read_f32` (`read`) and `flush`
// (`flush`). What they answer is said in `stream/specs/Settings.antt`, `adding/specs/Calls.antt` and
// `read/specs/Reading.antt`.
#![tactic(auto)]

pub use flush::flush;
pub use process::{Outcome, Told, Wrote};
pub use read::{Gave, read_f32};
pub use stream::{Balance, NotOpened, Refusal, Refused, Setting, SonicStream, Ties};
pub use write::{write_f32, write_i16};
