// Division by a number that many sizes are divided by: a multiplication by its reciprocal.
#![tactic(auto)]

ghost use Rattle.std.specs.Prelude.{◌≡◌, ◌*◌, ◌/◌, ◌≤◌};
ghost use Rattle.laws.specs.Reciprocal.{reciprocal_of};

// The parts of 1 in which a reciprocal is counted.
const RECIPROCAL_PARTS: u64 = 0x1000_0000_0000;

// A number with its reciprocal, in parts; that of 0 is 1.
#[derive(Clone, Copy, Debug, PartialEq, Eq)]
pub struct Reciprocal {
    pub of: usize,
    parts: u64,
    ghost exact: { parts ≡ reciprocal_of of },
}

impl Reciprocal {
    // That of 0 is 1, and divides nothing: a crossfade of no frames asks for it.
    pub fn new(of: usize) -> Reciprocal
        ensures { result.of ≡ of }
    {
        let parts = if of == 0 {
            1
        } else {
            RECIPROCAL_PARTS / (of as u64) + 1
        };
        Reciprocal { of, parts }
    }

    // A size divided by the number.
    pub fn divide(self, size: u64) -> u64
        requires divisor { (1 ≤ self.of) × (self.of ≤ 16384) }
        requires size { size ≤ 65535 * self.of }
        ensures { result ≡ size / self.of }
    {
        size * self.parts / RECIPROCAL_PARTS
    }
}
