// The calls of include/kelpladder.h, exported: each hands on the function of `sonic_c` of its name, with its clauses. No
// logic.
#![tactic(auto)]

ghost use Rattle.std.specs.Prelude.{◌≡◌};
ghost use Rattle.frames.specs.Areas.{areas};
ghost use Rattle.search.specs.declared.Ties.TheVariants.{Smallest};
ghost use Rattle.search.specs.Ties.{ties_of};
ghost use Rattle.stream.specs.declared.Setting.TheVariants.{Speed, Pitch, Volume, StepOver};
ghost use Rattle.stream.specs.State.{steps_over};
ghost use Rattle.stream.specs.Settings.{open_call, set_call, available_call};
ghost use Rattle.adding.specs.Calls.{write_call, flush_call};
ghost use Rattle.read.specs.Reading.{read_call};
ghost use Rattle.sonic_c.specs.Answers.{opened_of, changed_of, available_of, WroteEnsures, GaveEnsures};
ghost use Rattle.wave.specs.Wave.{read_wave, write_wave};
ghost use Rattle.sonic_c.specs.Waves.{wave_of, written_of};

use sonic_c::waves::{Wave, WaveWritten};
use sonic_c::{Available, Changed, Gave, Opened, Wrote, calls, waves};
use stream::SonicStream;

#[unsafe(no_mangle)]
pub extern "C" fn kelpladder_open(rate: u32, channels: u32) -> Opened
    ensures { result ≡ opened_of (open_call rate channels Smallest) }
{
    calls::kelpladder_open(rate, channels)
}

#[unsafe(no_mangle)]
pub extern "C" fn kelpladder_open_with_ties(rate: u32, channels: u32, ties: u32) -> Opened
    ensures { result ≡ opened_of (open_call rate channels (ties_of ties)) }
{
    calls::kelpladder_open_with_ties(rate, channels, ties)
}

#[unsafe(no_mangle)]
pub extern "C" fn kelpladder_set_speed(stream: SonicStream, speed: f32) -> Changed
    ensures { result ≡ changed_of (set_call stream (Speed speed)) }
{
    calls::kelpladder_set_speed(stream, speed)
}

#[unsafe(no_mangle)]
pub extern "C" fn kelpladder_set_pitch(stream: SonicStream, pitch: f32) -> Changed
    ensures { result ≡ changed_of (set_call stream (Pitch pitch)) }
{
    calls::kelpladder_set_pitch(stream, pitch)
}

#[unsafe(no_mangle)]
pub extern "C" fn kelpladder_set_volume(stream: SonicStream, volume: f32) -> Changed
    ensures { result ≡ changed_of (set_call stream (Volume volume)) }
{
    calls::kelpladder_set_volume(stream, volume)
}

#[unsafe(no_mangle)]
pub extern "C" fn kelpladder_set_step_over(stream: SonicStream, on: u32) -> Changed
    ensures { result ≡ changed_of (set_call stream (StepOver (steps_over on))) }
{
    calls::kelpladder_set_step_over(stream, on)
}

#[unsafe(no_mangle)]
pub extern "C" fn kelpladder_available_frames(stream: SonicStream) -> Available
    ensures { result ≡ available_of stream (available_call stream) }
{
    calls::kelpladder_available_frames(stream)
}

#[unsafe(no_mangle)]
pub extern "C" fn kelpladder_write_f32(
    stream: SonicStream,
    samples: &[f32],
    input: &mut [i16],
    stage: &mut [i16],
    output: &mut [i16],
    scratch: &mut [i16],
) -> Wrote
    ensures { WroteEnsures stream.channels
        (write_call stream samples.now
        (areas input.old stage.old output.old scratch.old)) result
        (areas input.new stage.new output.new scratch.new) }
{
    calls::kelpladder_write_f32(stream, samples, input, stage, output, scratch)
}

#[unsafe(no_mangle)]
pub extern "C" fn kelpladder_read_f32(
    stream: SonicStream,
    most: usize,
    slice: &mut [f32],
    output: &mut [i16],
) -> Gave
    ensures { GaveEnsures stream.channels (read_call stream most slice.old output.old) result
        slice.old slice.new output.new }
{
    calls::kelpladder_read_f32(stream, most, slice, output)
}

#[unsafe(no_mangle)]
pub extern "C" fn kelpladder_flush(
    stream: SonicStream,
    input: &mut [i16],
    stage: &mut [i16],
    output: &mut [i16],
    scratch: &mut [i16],
) -> Wrote
    ensures { WroteEnsures stream.channels
        (flush_call stream (areas input.old stage.old output.old
        scratch.old)) result
        (areas input.new stage.new output.new scratch.new) }
{
    calls::kelpladder_flush(stream, input, stage, output, scratch)
}

#[unsafe(no_mangle)]
pub extern "C" fn kelpladder_wave_read(bytes: &[u8]) -> Wave
    ensures { result ≡ wave_of (read_wave bytes.now) }
{
    waves::kelpladder_wave_read(bytes)
}

#[unsafe(no_mangle)]
pub extern "C" fn kelpladder_wave_write(
    dest: &mut [u8],
    rate: u32,
    channels: u32,
    samples: &[i16],
) -> WaveWritten
    ensures { (result ≡ written_of (write_wave rate channels samples.now dest.old).answer)
        × (dest.new ≡ (write_wave rate channels samples.now dest.old).dest) }
{
    waves::kelpladder_wave_write(dest, rate, channels, samples)
}
