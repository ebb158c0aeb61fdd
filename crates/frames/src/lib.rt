// Counts of frames and of samples, and areas of samples: copying, silence, removing from the front.
#![tactic(auto)]

ghost use Rattle.std.specs.Prelude.{◌≡◌, ◌+◌, ◌*◌, ◌/◌, ◌^◌, ◌≤◌, ◌<◌, pos, length, drop, replicate};
ghost use Rattle.std.proofs.Math.Seq.{paste};
ghost use Rattle.frames.specs.Removal.{FrontRemoved};

// A count of frames. A frame is one sample per channel. C has it as a size_t.
#[repr(C)]
#[derive(Clone, Copy, Debug, PartialEq, Eq)]
pub struct Frames(pub usize);

// A count of samples, or a place in an area. A sample is one i16.
#[derive(Clone, Copy, Debug, PartialEq, Eq)]
pub struct Samples(pub usize);

impl Frames {
    // The samples of these frames.
    pub fn samples(self, channels: usize) -> Samples
        requires { self.0 * channels < 2 ^ 64 }
        ensures { result.0 ≡ self.0 * channels }
    {
        let n = self.0;
        Samples(n * channels)
    }
}

impl Samples {
    // The whole frames of these samples. A call has many such counts, and with one channel none takes a division.
    pub fn frames(self, channels: usize) -> Frames
        requires { 0 < channels }
        ensures { result.0 ≡ self.0 / channels }
    {
        let n = self.0;
        if channels == 1 {
            return Frames(n);
        }
        Frames(n / channels)
    }
}

// Copies `count` samples of the source, from `from` on, to the place `to` of the area. A loop, not `copy_from_slice`:
// that stores some samples twice (40 of 1,000), and tests/removal.rs counts one store of each. Places and counts stand
// beside areas here and above: each contract speaks of the whole area (`paste`); of a cut one it would speak of parts.
pub fn copy(source: &[i16], from: Samples, count: Samples, area: &mut [i16], to: Samples)
    requires { (from.0 + count.0 ≤ length source.now) × (to.0 + count.0 ≤ length area.old) }
    ensures { area.new ≡ paste area.old to.0 (drop from.0 source.now) count.0 }
{
    for i in 0..count.0 {
        area[to.0 + i] = source[from.0 + i];
    }
}

// Writes `count` samples of 0 at the place `to` of the area. A loop, not `fill`, which stores the last one by itself:
// 100 samples took 5.7 ns instead of 4.1.
pub fn silence(count: Samples, area: &mut [i16], to: Samples)
    requires { to.0 + count.0 ≤ length area.old }
    ensures { area.new ≡ paste area.old to.0 (replicate count.0 (pos 0)) count.0 }
{
    for i in 0..count.0 {
        area[to.0 + i] = 0;
    }
}

// Samples of a block: 16 bytes.
const BLOCK: usize = 8;

// Moves a block of samples to another place of the area. All of it is read before any is written, so that it passes
// through one register.
fn move_block(area: &mut [i16], from: Samples, to: Samples)
    requires from { from.0 + 8 ≤ length area.old }
    requires to { to.0 + 8 ≤ length area.old }
    ensures { area.new ≡ paste area.old to.0 (drop from.0 area.old) 8 }
{
    let mut block = [0i16; BLOCK];
    copy(area, from, Samples(BLOCK), &mut block, Samples(0));
    copy(&block, Samples(0), Samples(BLOCK), area, to);
}

// Moves samples from the place `count` to the front, as many of `kept` as are whole blocks, and answers how many.
fn move_blocks(area: &mut [i16], count: Samples, kept: Samples) -> Samples
    requires { count.0 + kept.0 ≤ length area.old }
    ensures moved { result.0 ≤ kept.0 }
    ensures area { area.new ≡ paste area.old 0 (drop count.0 area.old) result.0 }
{
    let blocks = kept.0 / BLOCK;
    for block in 0..blocks {
        let to = block * BLOCK;
        move_block(area, Samples(count.0 + to), Samples(to));
    }
    Samples(blocks * BLOCK)
}

// Moves samples one by one to a place further to the front. Not `copy`, which is lent the source apart from the area.
fn move_samples(area: &mut [i16], from: Samples, to: Samples, count: Samples)
    requires order { to.0 ≤ from.0 }
    requires within { from.0 + count.0 ≤ length area.old }
    ensures { area.new ≡ paste area.old to.0 (drop from.0 area.old) count.0 }
{
    for i in 0..count.0 {
        area[to.0 + i] = area[from.0 + i];
    }
}

// Removes the first `count` samples: the `kept` samples behind them move to the front, each once, or nothing is moved.
// Not by `copy_within`, which stores some of them twice.
pub fn remove_front(area: &mut [i16], count: Samples, kept: Samples)
    requires { count.0 + kept.0 ≤ length area.old }
    ensures { FrontRemoved count.0 kept.0 area.old area.new }
{
    let n = count.0;
    let m = kept.0;
    if n == 0 || m == 0 {
        return;
    }
    let moved = move_blocks(area, count, kept).0;
    move_samples(area, Samples(n + moved), Samples(moved), Samples(m - moved));
}
