// What a frame is made of: the tail frames of its taps, and the ratio at which they are weighted.
ghost use Rattle.std.specs.Prelude.{◌+◌, ◌*◌, ◌≤◌, ◌<◌, length};
ghost use Rattle.sinc.specs.Sinc.{sinc_filter_points, max_width};

use frames::Samples;
use reciprocals::Reciprocal;

// The 12 tail frames from the place `from` of the stage on.
#[derive(Clone, Copy)]
pub struct Window<'a> {
    pub stage: &'a [i16],
    pub from: Samples,
    pub channels: usize,
    ghost holds: { from.0 + sinc_filter_points * channels ≤ length stage.now },
}

// A ratio: `at` of as many parts as the width has.
#[derive(Clone, Copy, Debug, PartialEq, Eq)]
pub struct Ratio {
    pub at: usize,
    pub width: Reciprocal,
    ghost below: { at < width.of },
    ghost narrow: { width.of ≤ max_width },
}
