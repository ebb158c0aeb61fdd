// Frames of a reel of which nothing came out: how many there are, and the longest stretch of them. `map` writes down
// every stretch, and `seconds` is the time of frames. `specs/Passes.antt` says what is kept.
#![tactic(auto)]

pub mod map;
pub mod seconds;

ghost use Rattle.std.specs.Prelude.{◌≡◌};
ghost use Rattle.passes.specs.Passes.{joined, longer, noted};

// Frames next to each other: the first of them, and how many they are.
#[derive(Clone, Copy, Debug, PartialEq, Eq)]
pub struct Span {
    pub first: u64,
    pub frames: u64,
}

impl Span {
    // No frames. No frames. No Option: a first piece stands alone behind it, as behind any stretch, and the map leaves
    // it out by its length.
    pub const NONE: Span = Span {
        first: 0,
        frames: 0,
    };

    // A stretch with a piece behind it: the two joined if the piece begins where the stretch ends, else the piece
    // alone.
    fn join(self, piece: Span) -> Span
        ensures { result ≡ joined self piece }
    {
        if piece.first == self.first.wrapping_add(self.frames) {
            Span {
                frames: self.frames.wrapping_add(piece.frames),
                ..self
            }
        } else {
            piece
        }
    }

    // The longer of two, and this one if they are as long. An `if`: by `max_by_key` the proof did not close.
    fn longer(self, other: Span) -> Span
        ensures { result ≡ longer self other }
    {
        if self.frames < other.frames {
            other
        } else {
            self
        }
    }
}

// The pitch periods passed over, and the frames of which nothing came out: all of them, the last stretch and the
// longest one, the first of those that are as long. None of the counts comes near 2^64.
#[derive(Clone, Copy, Debug, PartialEq, Eq)]
pub struct Passes {
    pub periods: u64,
    pub frames: u64,
    pub last: Span,
    pub longest: Span,
}

impl Passes {
    // Nothing was passed over.
    pub const NONE: Passes = Passes {
        periods: 0,
        frames: 0,
        last: Span::NONE,
        longest: Span::NONE,
    };

    // One more piece of the reel of which nothing came out, and the periods in it that are counted.
    pub fn note(self, periods: u64, piece: Span) -> Passes
        ensures { result ≡ noted self periods piece }
    {
        let last = self.last.join(piece);
        Passes {
            periods: self.periods.wrapping_add(periods),
            frames: self.frames.wrapping_add(piece.frames),
            last,
            longest: self.longest.longer(last),
        }
    }
}
