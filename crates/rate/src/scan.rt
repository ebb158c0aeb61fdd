// The scan of the tail: the frames that it makes, until one does not fit.
ghost use Rattle.std.specs.Prelude.{◌≡◌, ◌+◌, ◌-◌, ◌*◌, ◌≤◌, ◌<◌, length, drop};
ghost use Rattle.std.proofs.Math.Seq.{paste};
ghost use Rattle.frames.specs.Framing.{frames_of};
ghost use Rattle.sinc.specs.Sinc.{sinc_filter_points};
ghost use Rattle.rate.specs.Tail.{interpolate_window};
ghost use Rattle.rate.specs.Adjusting.{AreasHold, Placed, ScanEnsures};
ghost use Rattle.rate.specs.Phases.{CycleOf, Serves, PhaseReady};

use crate::phases::{Cycle, cycle_of};
use crate::{Adjusted, Position, Rates};
use frames::{Frames, Samples};
use reciprocals::Reciprocal;
use sinc::SINC_FILTER_POINTS;
use sinc::phases::{KEPT_COEFFICIENTS, keep_phases};
use sinc::table::SincTable;
use sinc::window::{Ratio, Window};

// Where the coefficients of frames come from: those of each phase are kept, or those of a frame's ratio, which is its
// phase, are computed from the table and the width.
#[derive(Clone, Copy)]
pub(crate) enum Coefficients<'a> {
    Kept(&'a [i32]),
    Computed(SincTable<'a>, Reciprocal),
}

// Makes the frame at a phase of the 12 tail frames from `first` on, behind the first `to` frames of the output.
fn make_frame(
    coefficients: Coefficients,
    stage: &[i16],
    first: Frames,
    channels: usize,
    cycle: Cycle,
    phase: usize,
    output: &mut [i16],
    to: Frames,
)
    requires phase_ready { Serves cycle coefficients × PhaseReady cycle phase }
    requires channels_in_bounds { ((first.0 + sinc_filter_points) * channels ≤ length stage.now)
        × ((to.0 + 1) * channels ≤ length output.old) }
    ensures { output.new ≡ paste output.old (to.0 * channels)
        (interpolate_window (frames_of channels sinc_filter_points (drop (first.0 * channels) stage.now))
        (cycle.step * (phase + 1) - 1) (cycle.step * cycle.new)) channels }
{
    let from = first.samples(channels);
    let window = Window {
        stage,
        from,
        channels,
    };
    let place = to.samples(channels);
    match coefficients {
        Coefficients::Kept(kept) => {
            let at = SINC_FILTER_POINTS * phase;
            let weights = &kept[at..];
            sinc::phases::weighted_frame(weights, window, output, place);
        }
        Coefficients::Computed(table, width) => {
            let ratio = Ratio { at: phase, width };
            sinc::ratio_frame(table, window, ratio, output, place);
        }
    }
}

// Consumes tail frames while more than 12 lie ahead; the frames that they make go behind those that wait in the output.
fn scan_tail(
    coefficients: Coefficients,
    stage: &[i16],
    tail: Frames,
    channels: usize,
    rates: Rates,
    cycle: Cycle,
    at: Position,
    output: &mut [i16],
    waiting: Frames,
) -> Option<Adjusted>
    requires lent { AreasHold channels tail.0 waiting.0 stage.now output.old }
    requires placed { Placed rates at }
    requires cycle_of { CycleOf rates cycle }
    requires serves { Serves cycle coefficients }
    ensures { ScanEnsures channels rates tail.0 waiting.0 at stage.now output.old
        output.new result }
{
    let t = tail.0;
    let w = waiting.0;
    let room = Samples(output.len()).frames(channels).0 - w;
    let new_rate = rates.new;
    let old_rate = rates.old;
    let phases = cycle.new;
    let old_step = cycle.old;
    let mut p = at.old;
    let mut n = at.new;
    let mut made: usize = 0;
    let mut j: usize = 0;
    // labelled, and left from the inner loop, as docs/DECISIONS.md has it
    'scan: while j + SINC_FILTER_POINTS < t {
        let right = (p + 1) * new_rate;
        let end = (p + 1) * phases;
        while n * old_rate < right {
            if made == room {
                break 'scan;
            }
            let first = Frames(j);
            let to = Frames(w + made);
            let phase = end - n * old_step - 1;
            make_frame(
                coefficients,
                stage,
                first,
                channels,
                cycle,
                phase,
                output,
                to,
            );
            made += 1;
            n += 1;
        }
        p += 1;
        if p == old_rate {
            p = 0;
            n = 0;
        }
        j += 1;
    }
    if j + SINC_FILTER_POINTS < t {
        return None;
    }
    Some(Adjusted {
        made: Frames(made),
        from: Frames(j),
        left: Frames(t - j),
        at: Position { old: p, new: n },
    })
}

// Scans the tail. The coefficients of phases that come again are computed once, before. A call of the scan for each:
// the array is made only where it is used.
pub(crate) fn convert_tail(
    table: SincTable,
    stage: &[i16],
    tail: Frames,
    channels: usize,
    rates: Rates,
    at: Position,
    output: &mut [i16],
    waiting: Frames,
) -> Option<Adjusted>
    requires lent { AreasHold channels tail.0 waiting.0 stage.now output.old }
    requires placed { Placed rates at }
    ensures { ScanEnsures channels rates tail.0 waiting.0 at stage.now output.old
        output.new result }
{
    let cycle = cycle_of(rates, tail);
    if cycle.step > 1 {
        let mut kept = [0i32; KEPT_COEFFICIENTS];
        keep_phases(table, cycle.step, cycle.new, &mut kept);
        let coefficients = Coefficients::Kept(&kept);
        return scan_tail(
            coefficients,
            stage,
            tail,
            channels,
            rates,
            cycle,
            at,
            output,
            waiting,
        );
    }
    let coefficients = Coefficients::Computed(table, Reciprocal::new(cycle.new));
    scan_tail(
        coefficients,
        stage,
        tail,
        channels,
        rates,
        cycle,
        at,
        output,
        waiting,
    )
}
