// Refusals 4 and 5, which go by the lengths of areas. A length is divided by the channels, so that no count overflows.
// `1 ≤ channels` stays in the contracts: C hands any stream value over, so that `SonicStream` has no ghost field, and
// the areas are lent apart.
ghost use Rattle.std.specs.Prelude.{◌≡◌, [], ◌+◌, ◌*◌, ◌≤◌, length};
ghost use Rattle.frames.specs.Areas.{areas};
ghost use Rattle.stream.specs.Refusals.{too_long, too_short, sizes_bad, parts_bad, areas_bad, output_bad};

use crate::SonicStream;
use frames::{Frames, Samples};

// Whether an area has more samples than any may have.
fn too_long(area: &[i16]) -> bool
    ensures { result ≡ too_long area.now }
{
    area.len() > SonicStream::MAX_AREA
}

// Whether an area has fewer samples than these frames.
fn too_short(area: &[i16], count: Frames, channels: u32) -> bool
    requires { 1 ≤ channels }
    ensures { result ≡ too_short channels count.0 area.now }
{
    count.0 > Samples(area.len()).frames(channels as usize).0
}

// Whether an area is too long, or the scratch too short.
#[tactic(auto, unfolding(crate::specs::Refusals::sizes_bad))]
fn sizes_bad(
    stream: SonicStream,
    input: &[i16],
    stage: &[i16],
    output: &[i16],
    scratch: &[i16],
) -> bool
    ensures { result ≡ sizes_bad stream
        (areas input.now stage.now output.now scratch.now) }
{
    too_long(input)
        || too_long(stage)
        || too_long(output)
        || too_long(scratch)
        || scratch.len() < period::max_required(stream.rate as usize).0
}

// Whether an area is shorter than what the stream says it holds.
#[tactic(auto, unfolding(crate::specs::Refusals::parts_bad))]
fn parts_bad(stream: SonicStream, input: &[i16], stage: &[i16], output: &[i16]) -> bool
    requires { 1 ≤ stream.channels }
    ensures { result ≡ parts_bad stream (areas input.now stage.now output.now []) }
{
    too_short(input, stream.held, stream.channels)
        || too_short(stage, stream.tail, stream.channels)
        || too_short(output, stream.waiting, stream.channels)
}

// Refusal 4 of a write or a flush.
#[tactic(auto, unfolding(crate::specs::Refusals::areas_bad, crate::specs::Refusals::parts_bad))]
pub fn areas_bad(
    stream: SonicStream,
    input: &[i16],
    stage: &[i16],
    output: &[i16],
    scratch: &[i16],
) -> bool
    requires { 1 ≤ stream.channels }
    ensures { result ≡ areas_bad stream
        (areas input.now stage.now output.now scratch.now) }
{
    sizes_bad(stream, input, stage, output, scratch) || parts_bad(stream, input, stage, output)
}

// Refusal 5: whether n frames more exceed the input.
pub fn input_full(stream: SonicStream, n: Frames, input: &[i16]) -> bool
    requires { (1 ≤ stream.channels) × (stream.held.0 * stream.channels ≤ length input.now) }
    ensures { result ≡ too_short stream.channels (stream.held.0 + n.0) input.now }
{
    n.0 > Samples(input.len()).frames(stream.channels as usize).0 - stream.held.0
}

// Refusal 4 of a read.
#[tactic(auto, unfolding(crate::specs::Refusals::output_bad))]
pub fn output_bad(stream: SonicStream, output: &[i16]) -> bool
    requires { 1 ≤ stream.channels }
    ensures { result ≡ output_bad stream output.now }
{
    too_long(output) || too_short(output, stream.waiting, stream.channels)
}
