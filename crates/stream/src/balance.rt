// The balance of frames, and refusal 12.
ghost use Rattle.std.specs.Prelude.{◌≡◌};
ghost use Rattle.stream.specs.Balance.{book_of};

// Frames of periods skipped and frames of periods inserted: those of a call, or the totals of a stream.
#[repr(C)]
#[derive(Clone, Copy)]
pub struct Balance {
    pub skipped: u64,
    pub inserted: u64,
}

#[tactic(auto, unfolding(crate::specs::Balance::book_of, crate::specs::Balance::past, crate::specs::Balance::booked))]
impl Balance {
    // Fresh totals, and those of a call that skips and inserts nothing.
    pub const NONE: Balance = Balance {
        skipped: 0,
        inserted: 0,
    };

    // The totals with those of a call; None, refusal 12, if one would pass 64 bits.
    pub fn book(self, call: Balance) -> Option<Balance>
        ensures { result ≡ book_of self call }
    {
        Some(Balance {
            skipped: self.skipped.checked_add(call.skipped)?,
            inserted: self.inserted.checked_add(call.inserted)?,
        })
    }
}
