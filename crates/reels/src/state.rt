// How a run goes or has ended, the writes of it that stalled, and what a call leaves. `specs/States.antt` says what
// follows a call.
ghost use Rattle.std.specs.Prelude.{◌≡◌, ◌+◌, ◌*◌, nat_le};
ghost use Rattle.adding.specs.Calls.{stream_after};
ghost use Rattle.reels.specs.Reels.{passed_in};
ghost use Rattle.reels.specs.States.{sound, fine, failed, kept, flush_stall, state_in, count_stall};

use fill::Outcome;
use plans::Plan;
use process::Wrote;
use stream::{Refusal, Refused, SonicStream};

#[derive(Clone, Copy, Debug, PartialEq, Eq)]
pub enum RunState {
    Going,
    // The last write stalled: the first frame held before it.
    Stalled(u64),
    // The flush of a run that was going stalled: the first frame held before it.
    FlushStalled(u64),
    Refused(Refusal),
    ReadFailed,
    // Standard output or the map took no more.
    WriteFailed,
}

impl RunState {
    // Whether nothing was refused and nothing failed.
    pub fn is_sound(self) -> bool
        ensures { result ≡ sound self }
    {
        matches!(
            self,
            RunState::Going | RunState::Stalled(_) | RunState::FlushStalled(_)
        )
    }

    // Whether a run goes, or its flush alone stalled.
    pub fn is_fine(self) -> bool
        ensures { result ≡ fine self }
    {
        matches!(self, RunState::Going | RunState::FlushStalled(_))
    }

    // Whether a read or a write failed.
    pub fn has_failed(self) -> bool
        ensures { result ≡ failed self }
    {
        matches!(self, RunState::ReadFailed | RunState::WriteFailed)
    }

    // What follows a state: an earlier refusal or failure is kept.
    pub fn then(self, next: RunState) -> RunState
        ensures { result ≡ kept self next }
    {
        if self.is_sound() { next } else { self }
    }

    // What a flush that stalls leaves: if a write stalled before it, that stall.
    pub fn flush_stall(self, place: u64) -> RunState
        ensures { result ≡ flush_stall place self }
    {
        match self {
            RunState::Going => RunState::FlushStalled(place),
            _ => self,
        }
    }
}

// The writes that stalled, which do not come near 2^64, and the first frame held before the first of them. `first` is 0
// while none stalled: the count tells that, as in the definition (`count_stall`).
#[derive(Clone, Copy, Debug, PartialEq, Eq)]
pub struct Stalls {
    pub count: u64,
    pub first: u64,
}

impl Stalls {
    // With a write that had this answer.
    pub fn count_stall(self, place: u64, answer: Result<Wrote, Refused>) -> Stalls
        ensures { result ≡ count_stall place answer self }
    {
        match answer {
            Ok(wrote) if wrote.told.outcome == Outcome::Stalled => Stalls {
                count: self.count.wrapping_add(1),
                first: if self.count == 0 { place } else { self.first },
            },
            _ => self,
        }
    }
}

// What a call leaves: `stall` if it stalled.
pub(crate) fn state_in(stall: RunState, answer: Result<Wrote, Refused>) -> RunState
    ensures { result ≡ state_in stall answer }
{
    match answer {
        Err(refused) => RunState::Refused(refused.refusal),
        Ok(wrote) if wrote.told.outcome == Outcome::Stalled => stall,
        Ok(_) => RunState::Going,
    }
}

// Whether a flush has room behind one frame more than so many.
pub(crate) fn leaves_room(held: usize, plan: Plan) -> bool
    ensures { result ≡ nat_le (held + (1 + 2 * plan.required)) plan.limit }
{
    held.saturating_add(1 + 2 * plan.required) <= plan.limit
}

// The stream that a call left.
pub(crate) fn stream_after(answer: Result<Wrote, Refused>) -> SonicStream
    ensures { result ≡ stream_after answer }
{
    match answer {
        Ok(wrote) => wrote.stream,
        Err(refused) => refused.stream,
    }
}

// The periods that it passed over.
pub(crate) fn passed_in(answer: Result<Wrote, Refused>) -> u64
    ensures { result ≡ passed_in answer }
{
    answer.map_or(0, |wrote| wrote.told.passed as u64)
}
