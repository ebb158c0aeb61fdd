// A whole reel through the stream: its blocks are read and written to it, some at a time, and at the end it is flushed.
// Once the stream takes no more, the input is only counted. `specs/Skimming.antt` says what is promised.
#![tactic(auto)]

ghost use Rattle.std.specs.Prelude.{◌≡◌, true, ◌*◌, ◌≤◌, length};
ghost use Rattle.adding.specs.Calls.{flush_call};
ghost use Rattle.reels.specs.Lent.{lent, AreSized};
ghost use Rattle.reels.specs.Reels.{takes_more};
ghost use Rattle.reels.specs.Serving.{Serving};
ghost use Rattle.skimming.specs.Skimming.{Flushed, Underway, Complete};

use blocks::turn;
use plans::Plan;
use ports::Ports;
use reels::areas::{Areas, Buffers};
use reels::reel::Reel;
use reels::state::RunState;

// The blocks that are read between two times that the caller may tell how far the run is: at 1,000 Hz and one channel
// about a minute.
const TURNS: u64 = 16;

// Flushes the stream, if anything was written to it and it takes more. The job stays served.
fn flush<const STAGE: usize, const OUTPUT: usize>(
    reel: Reel,
    plan: Plan,
    areas: &mut Areas<STAGE, OUTPUT>,
) -> Reel
    requires { Underway plan reel × AreSized plan STAGE OUTPUT }
    ensures flushed { Flushed plan (flush_call reel.stream (lent areas.old)).answer reel result }
    ensures serving { Serving plan result }
{
    if reel.written == 0 || !reel.takes_more(plan) {
        return reel;
    }
    let answer = sonic::flush(
        reel.stream,
        &mut areas.input,
        &mut areas.stage,
        &mut areas.output,
        &mut areas.scratch,
    );
    let after = reel.answered(answer, reel.state.flush_stall(reel.first_held()));
    let flushed = Reel {
        flushed: true,
        gave: after.stream.waiting.0 as u64,
        ..after
    };
    Reel {
        passes: maps::noted_flush(flushed),
        ..flushed
    }
}

// Reads and writes some blocks, or as many as are left before the input ends or a read or a write fails. `Underway`
// stays a clause: the reel changes at each step, and a struct of it and its plan would be built and copied anew. Plan,
// ports, areas and buffers are borrowed apart: a block is read while areas are written.
pub fn turns<const STAGE: usize, const OUTPUT: usize>(
    mut reel: Reel,
    plan: Plan,
    ports: &mut Ports,
    areas: &mut Areas<STAGE, OUTPUT>,
    buffers: &mut Buffers,
) -> Reel
    requires { Underway plan reel × AreSized plan STAGE OUTPUT }
    ensures { Underway plan result }
{
    for _turn in 0..TURNS {
        if !reel.reads_more() {
            break;
        }
        reel = turn(reel, plan, ports, areas, buffers);
    }
    reel
}

// A run whose input has not ended has failed to read it. Another is as it was.
fn closed(reel: Reel, plan: Plan) -> Reel
    requires { Underway plan reel }
    ensures { Underway plan result × (takes_more plan result ≡ true → result.ended ≡ true)
        × (reel.ended ≡ true → result ≡ reel) }
{
    if reel.ended {
        reel
    } else {
        reel.stopped(RunState::ReadFailed)
    }
}

// Ends a run: flushes the stream, writes out what that gives, and ends the map.
pub fn finish<const STAGE: usize, const OUTPUT: usize>(
    reel: Reel,
    plan: Plan,
    ports: &mut Ports,
    areas: &mut Areas<STAGE, OUTPUT>,
    values: &mut [f32],
    bytes: &mut [u8],
) -> Reel
    requires served { Underway plan reel × AreSized plan STAGE OUTPUT }
    requires in_bounds { (32 ≤ length values.old) × (2 * length values.old ≤ length bytes.old) }
    ensures { Complete plan result }
{
    let ended = closed(reel, plan);
    let flushed = flush(ended, plan, areas);
    let drained = flushed.drain(1, &mut ports.output, &mut areas.output, values, bytes);
    maps::end(drained, ended.passes.last, plan.opening(), ports)
}
