// A block of a reel is read, and written to the stream in writes that fill its input as far as the plan says. After a
// stall they go on, a frame at a time once the input is as full as that: s of a call, which is rounded, changes with
// each write, and where the pitch period is s − 1 its last bit decides.
// `specs/Blocks.antt` says what is promised.
#![tactic(auto)]

ghost use Rattle.std.specs.Prelude.{◌≡◌, true, ◌+◌, ◌-◌, ◌*◌, ◌/◌, ◌%◌, ◌^◌, ◌<◌, ◌≤◌, map, length};
ghost use Rattle.floats.specs.Write.{sample_out};
ghost use Rattle.adding.specs.Calls.{write_call};
ghost use Rattle.plans.specs.Plans.{block_samples};
ghost use Rattle.reels.specs.Lent.{lent, AreSized};
ghost use Rattle.reels.specs.Serving.{Serving};
ghost use Rattle.reels.specs.Reels.{takes_more, Drained};
ghost use Rattle.blocks.specs.Blocks.{WriteAnswered, NoneWaits, BlockWritten, Turned};

use frames::{Frames, Samples};
use plans::{BLOCK_SAMPLES, Plan};
use ports::Ports;
use reels::areas::{Areas, Buffers};
use reels::reading::read_block;
use reels::reel::Reel;
use reels::state::RunState;

// Where a write that begins at `at` ends: it fills the input up to the plan's `full` frames, or takes all that is left.
fn write_end(at: usize, len: usize, held: Frames, plan: Plan) -> usize
    requires { (at < len) × (at % plan.channels ≡ 0) × (len % plan.channels ≡ 0)
        × (held.0 + 1 ≤ plan.limit) }
    ensures { (at < result) × (result ≤ len) × (result % plan.channels ≡ 0)
        × (held.0 + (result - at) / plan.channels ≤ plan.limit) }
{
    let frames = plan.full.saturating_sub(held.0).max(1);
    let size = Frames(frames).samples(plan.channels).0;
    at + size.min(len - at)
}

// One write, which fits: the job stays served.
fn write<const STAGE: usize, const OUTPUT: usize>(
    reel: Reel,
    samples: &[i16],
    plan: Plan,
    areas: &mut Areas<STAGE, OUTPUT>,
) -> Reel
    requires usable { (reel.stream.channels ≡ plan.channels) × (length samples.now % plan.channels ≡ 0) }
    requires served { AreSized plan STAGE OUTPUT × Serving plan reel × (takes_more plan reel ≡ true)
        × (reel.stream.waiting.0 ≤ block_samples / plan.channels)
        × (reel.stream.held.0 + length samples.now / plan.channels ≤ plan.limit) }
    ensures write_answered { WriteAnswered ((reel.written + length samples.now / plan.channels) % 2 ^ 64) reel
        (write_call reel.stream (map sample_out samples.now) (lent areas.old)).answer result }
    ensures serving { Serving plan result }
{
    let answer = sonic::write_i16(
        reel.stream,
        samples,
        &mut areas.input,
        &mut areas.stage,
        &mut areas.output,
        &mut areas.scratch,
    );
    let n = Samples(samples.len()).frames(plan.channels);
    let place = reel.first_held();
    let after = Reel {
        stalls: reel.stalls.count_stall(place, answer),
        written: reel.written.wrapping_add(n.0 as u64),
        ..reel.answered(answer, RunState::Stalled(place))
    };
    Reel {
        passes: maps::noted_write(after),
        ..after
    }
}

// Writes out the frames waiting, if there are as many as `few`. The test stands before the call, since a reel that is
// handed on and back is copied.
fn drain_full(
    reel: Reel,
    few: usize,
    ports: &mut Ports,
    output: &mut [i16],
    values: &mut [f32],
    bytes: &mut [u8],
) -> Reel
    requires { (1 ≤ few) × (32 ≤ length values.old) × (2 * length values.old ≤ length bytes.old) }
    ensures { Drained (length output.old) few reel result }
{
    if reel.stream.waiting.0 < few {
        return reel;
    }
    reel.drain(few, &mut ports.output, output, values, bytes)
}

// Writes a block to the stream, and writes out what that makes. Between its writes fewer frames wait than a block
// holds. A `while`: where a write ends, what the stream then holds says.
fn write_block<const STAGE: usize, const OUTPUT: usize>(
    mut reel: Reel,
    block: &[i16],
    plan: Plan,
    ports: &mut Ports,
    areas: &mut Areas<STAGE, OUTPUT>,
    values: &mut [f32],
    bytes: &mut [u8],
) -> Reel
    requires usable { (reel.stream.channels ≡ plan.channels) × (length block.now % plan.channels ≡ 0) }
    requires in_bounds { (32 ≤ length values.old) × (2 * length values.old ≤ length bytes.old) }
    requires served { AreSized plan STAGE OUTPUT × Serving plan reel × NoneWaits reel }
    ensures { BlockWritten plan (length block.now / plan.channels) reel result }
{
    let few = Samples(BLOCK_SAMPLES).frames(plan.channels).0;
    let mut at: usize = 0;
    while at < block.len() && reel.takes_more(plan) {
        let end = write_end(at, block.len(), reel.stream.held, plan);
        let last = reel.passes.last;
        reel = write(reel, &block[at..end], plan, areas);
        reel = maps::put_ended(reel, last, plan.opening(), ports);
        reel = drain_full(reel, few, ports, &mut areas.output, values, bytes);
        at = end;
    }
    reel.drain(1, &mut ports.output, &mut areas.output, values, bytes)
}

// Reads a block, writes it to the stream, and writes out what that makes.
pub fn turn<const STAGE: usize, const OUTPUT: usize>(
    reel: Reel,
    plan: Plan,
    ports: &mut Ports,
    areas: &mut Areas<STAGE, OUTPUT>,
    buffers: &mut Buffers,
) -> Reel
    requires usable { (reel.stream.channels ≡ plan.channels) × (plan.block % plan.channels ≡ 0)
        × (reel.partial ≡ 0) }
    requires served { AreSized plan STAGE OUTPUT × Serving plan reel × NoneWaits reel }
    ensures { Turned plan reel result }
{
    let read = read_block(
        &mut ports.input,
        reel,
        plan,
        &mut buffers.block,
        &mut buffers.bytes,
    );
    write_block(
        read.reel,
        &buffers.block[..read.samples],
        plan,
        ports,
        areas,
        &mut buffers.values,
        &mut buffers.bytes,
    )
}
