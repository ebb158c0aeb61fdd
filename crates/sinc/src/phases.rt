// The coefficients of phases that come again: computed once, kept, and a frame by them.
ghost use Rattle.std.specs.Prelude.{◌≡◌, ◌+◌, ◌*◌, ◌≤◌, length, drop};
ghost use Rattle.std.proofs.Math.Seq.{paste};
ghost use Rattle.sinc.specs.Sinc.{sinc_filter_points, max_width};
ghost use Rattle.sinc.specs.Weights.{SmallWeights, weighted_frame, PhasesKept};

use crate::SINC_FILTER_POINTS;
use crate::table::SincTable;
use crate::window::{Ratio, Window};
use frames::Samples;
use reciprocals::Reciprocal;

// The most phases that are kept.
pub const MAX_PHASES: usize = 32;

// Their coefficients: 12 of each.
pub const KEPT_COEFFICIENTS: usize = 384;

// Keeps the coefficients of each phase k below `phases` from the place 12·k on: those of the ratio step·(k + 1) − 1 and
// the width step·phases. A slice, and no array of arrays, which callers could not lend out of a longer one.
pub fn keep_phases(table: SincTable, step: usize, phases: usize, kept: &mut [i32])
    requires { (1 ≤ step) × (step * phases ≤ max_width) × (sinc_filter_points * phases ≤ length kept.old) }
    ensures { PhasesKept step phases kept.new }
{
    let width = Reciprocal::new(step * phases);
    for m in 0..SINC_FILTER_POINTS * phases {
        let at = step * (m / SINC_FILTER_POINTS + 1) - 1;
        let weight = crate::tap_coefficient(table, m % SINC_FILTER_POINTS, Ratio { at, width });
        kept[m] = weight;
    }
}

// One frame by the first 12 weights, in a slice that callers may cut where they like. With one channel the taps stand
// side by side: there the loop is compiled for that.
pub fn weighted_frame(weights: &[i32], window: Window, output: &mut [i16], to: Samples)
    requires enough { sinc_filter_points ≤ length weights.now }
    requires small { SmallWeights weights.now }
    requires channels_in_bounds { to.0 + window.channels ≤ length output.old }
    ensures { output.new ≡ paste output.old to.0
        (weighted_frame (drop window.entry.from.0 window.entry.stage.now) window.entry.channels weights.now)
        window.entry.channels }
{
    if window.channels == 1 {
        // without `..window`, which is refused beside a ghost field
        let mono = Window {
            stage: window.stage,
            from: window.from,
            channels: 1,
        };
        crate::write_frame(weights, mono, output, to);
    } else {
        crate::write_frame(weights, window, output, to);
    }
}
