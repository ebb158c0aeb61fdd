// The calls of include/kelpladder.h.
ghost use Rattle.std.specs.Prelude.{◌≡◌};
ghost use Rattle.frames.specs.Areas.{areas};
ghost use Rattle.search.specs.declared.Ties.TheVariants.{Smallest};
ghost use Rattle.search.specs.Ties.{ties_of};
ghost use Rattle.stream.specs.declared.Setting.TheVariants.{Speed, Pitch, Volume, StepOver};
ghost use Rattle.stream.specs.State.{steps_over};
ghost use Rattle.stream.specs.Settings.{open_call, set_call, available_call};
ghost use Rattle.adding.specs.Calls.{write_call, flush_call};
ghost use Rattle.read.specs.Reading.{read_call};
ghost use Rattle.sonic_c.specs.Answers.{opened_of, changed_of, available_of, WroteEnsures, GaveEnsures};

use crate::answers::available_of;
use crate::{Available, Changed, Gave, Opened, Wrote};
use frames::Frames;
use stream::{Setting, SonicStream, Ties};

pub fn kelpladder_open(rate: u32, channels: u32) -> Opened
    ensures { result ≡ opened_of (open_call rate channels Smallest) }
{
    Opened::from(SonicStream::new(rate, channels))
}

pub fn kelpladder_open_with_ties(rate: u32, channels: u32, ties: u32) -> Opened
    ensures { result ≡ opened_of (open_call rate channels (ties_of ties)) }
{
    Opened::from(SonicStream::with_ties(rate, channels, Ties::from(ties)))
}

pub fn kelpladder_set_speed(stream: SonicStream, speed: f32) -> Changed
    ensures { result ≡ changed_of (set_call stream (Speed speed)) }
{
    Changed::from(stream.set(Setting::Speed(speed)))
}

pub fn kelpladder_set_pitch(stream: SonicStream, pitch: f32) -> Changed
    ensures { result ≡ changed_of (set_call stream (Pitch pitch)) }
{
    Changed::from(stream.set(Setting::Pitch(pitch)))
}

pub fn kelpladder_set_volume(stream: SonicStream, volume: f32) -> Changed
    ensures { result ≡ changed_of (set_call stream (Volume volume)) }
{
    Changed::from(stream.set(Setting::Volume(volume)))
}

pub fn kelpladder_set_step_over(stream: SonicStream, on: u32) -> Changed
    ensures { result ≡ changed_of (set_call stream (StepOver (steps_over on))) }
{
    Changed::from(stream.set(Setting::StepOver(on > 0)))
}

pub fn kelpladder_available_frames(stream: SonicStream) -> Available
    ensures { result ≡ available_of stream (available_call stream) }
{
    available_of(stream, stream.available_frames())
}

pub fn kelpladder_write_f32(
    stream: SonicStream,
    samples: &[f32],
    input: &mut [i16],
    stage: &mut [i16],
    output: &mut [i16],
    scratch: &mut [i16],
) -> Wrote
    ensures { WroteEnsures stream.channels
        (write_call stream samples.now
        (areas input.old stage.old output.old scratch.old)) result
        (areas input.new stage.new output.new scratch.new) }
{
    Wrote::from(sonic::write_f32(stream, samples, input, stage, output, scratch))
}

pub fn kelpladder_read_f32(
    stream: SonicStream,
    most: usize,
    slice: &mut [f32],
    output: &mut [i16],
) -> Gave
    ensures { GaveEnsures stream.channels (read_call stream most slice.old output.old) result
        slice.old slice.new output.new }
{
    Gave::from(sonic::read_f32(stream, Frames(most), slice, output))
}

pub fn kelpladder_flush(
    stream: SonicStream,
    input: &mut [i16],
    stage: &mut [i16],
    output: &mut [i16],
    scratch: &mut [i16],
) -> Wrote
    ensures { WroteEnsures stream.channels
        (flush_call stream (areas input.old stage.old output.old
        scratch.old)) result
        (areas input.new stage.new output.new scratch.new) }
{
    Wrote::from(sonic::flush(stream, input, stage, output, scratch))
}
