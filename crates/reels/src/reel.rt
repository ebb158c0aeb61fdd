// A run: its stream, with what is told of it at the end.
ghost use Rattle.std.specs.Prelude.{◌≡◌, ◌*◌, ◌≤◌, length};
ghost use Rattle.pcm.specs.Pcm.{Encoded};
ghost use Rattle.read.specs.Reading.{read_call};
ghost use Rattle.plans.specs.Plans.{block_samples};
ghost use Rattle.reels.specs.States.{kept, failed};
ghost use Rattle.reels.specs.Reels.{takes_more, reads_more, fresh_reel, first_held};
ghost use Rattle.reels.specs.Reels.{Answered, Stopped, FewerWait, Drained};

use crate::state::{RunState, Stalls, leaves_room, passed_in, state_in, stream_after};
use frames::Frames;
use inputs::Source;
use passes::Passes;
use plans::{BLOCK_SAMPLES, Plan};
use process::Wrote;
use std::io;
use std::io::Write;
use stream::{Refused, SonicStream};

#[derive(Clone, Copy)]
pub struct Reel {
    pub stream: SonicStream,
    // Frames read, frames written to the stream, and frames written out. None comes near 2^64.
    pub frames_in: u64,
    pub written: u64,
    pub frames_out: u64,
    // What the input is, and what is left of it.
    pub source: Source,
    // The bytes at the end of the input that are no whole frame.
    pub partial: usize,
    // How the run goes, and the writes that stalled.
    pub state: RunState,
    pub stalls: Stalls,
    // Whether the input has ended, and the stream is flushed.
    pub ended: bool,
    pub flushed: bool,
    // The first frame held before the last call, the periods that the call passed over, and the frames that the flush
    // gave.
    pub from: u64,
    pub passed: u64,
    // The frames that the flush gave are 0 before it, and no Option in place of `flushed`: the map asks for frames that
    // came, flushed or not.
    pub gave: u64,
    // The stretched frames that waited in the tail before the last call.
    pub tail: Frames,
    // The frames of which nothing came out, and the descriptor of the map, if there is one.
    pub passes: Passes,
    pub map: Option<u32>,
}

// Writes out the first `count` values: a count beside them, since `pcm::encode` takes one.
fn write_values<W: Write>(
    writer: &mut W,
    values: &[f32],
    count: usize,
    bytes: &mut [u8],
) -> io::Result<()>
    requires { (count ≤ length values.now) × (2 * count ≤ length bytes.old) }
    ensures { Encoded count values.now bytes.new }
{
    pcm::encode(values, count, bytes);
    writer.write_all(&bytes[..2 * count])
}

impl Reel {
    pub fn new(stream: SonicStream, source: Source, map: Option<u32>) -> Reel
        ensures { result ≡ fresh_reel stream source map }
    {
        Reel {
            stream,
            frames_in: 0,
            written: 0,
            frames_out: 0,
            source,
            partial: 0,
            state: RunState::Going,
            stalls: Stalls { count: 0, first: 0 },
            ended: false,
            flushed: false,
            from: 0,
            passed: 0,
            gave: 0,
            tail: Frames(0),
            passes: Passes::NONE,
            map,
        }
    }

    // The first frame held.
    pub fn first_held(self) -> u64
        ensures { result ≡ first_held self.written self.stream }
    {
        self.written.saturating_sub(self.stream.held.0 as u64)
    }

    // Whether the stream takes a frame more. A run that has stalled goes on as long as its flush has room. A `match`,
    // since a stall asks more.
    pub fn takes_more(self, plan: Plan) -> bool
        ensures { result ≡ takes_more plan self }
    {
        match self.state {
            RunState::Going => true,
            RunState::Stalled(_) => leaves_room(self.stream.held.0, plan),
            _ => false,
        }
    }

    // After a refusal or a failure.
    pub fn stopped(self, by: RunState) -> Reel
        ensures { Stopped (kept self.state by) self result }
    {
        Reel {
            state: self.state.then(by),
            ..self
        }
    }

    // Whether a read or a write failed.
    pub fn has_failed(self) -> bool
        ensures { result ≡ failed self.state }
    {
        self.state.has_failed()
    }

    // Whether more of the input is read.
    pub fn reads_more(self) -> bool
        ensures { result ≡ reads_more self }
    {
        !self.ended && !self.has_failed()
    }

    // After a write or a flush with this answer, which leaves `stall` if it stalled.
    pub fn answered(self, answer: Result<Wrote, Refused>, stall: RunState) -> Reel
        ensures { Answered stall self.written self.flushed self.stalls self.passes self.gave self
            answer result }
    {
        Reel {
            stream: stream_after(answer),
            state: self.state.then(state_in(stall, answer)),
            from: self.first_held(),
            passed: passed_in(answer),
            tail: self.stream.tail,
            ..self
        }
    }

    // Reads a block of the frames waiting, and writes it out.
    fn write_out<W: Write>(
        self,
        writer: &mut W,
        output: &mut [i16],
        values: &mut [f32],
        bytes: &mut [u8],
    ) -> Reel
        requires { (32 ≤ length values.old) × (2 * length values.old ≤ length bytes.old) }
        ensures { FewerWait (length output.old)
            (read_call self.stream block_samples values.old output.old).answer self result }
    {
        match read::read_f32(self.stream, Frames(BLOCK_SAMPLES), values, output) {
            Err(refused) => Reel {
                stream: refused.stream,
                ..self
            }
            .stopped(RunState::Refused(refused.refusal)),
            Ok(gave) => {
                let count = gave.frames.samples(self.stream.channels as usize).0;
                let read = Reel {
                    stream: gave.stream,
                    ..self
                };
                match write_values(writer, values, count, bytes) {
                    Ok(()) => Reel {
                        frames_out: self.frames_out.wrapping_add(gave.frames.0 as u64),
                        ..read
                    },
                    Err(_) => read.stopped(RunState::WriteFailed),
                }
            }
        }
    }

    // Writes out the frames waiting, while there are as many as `few`, at least 1. Each turn gives one or more.
    pub fn drain<W: Write>(
        self,
        few: usize,
        writer: &mut W,
        output: &mut [i16],
        values: &mut [f32],
        bytes: &mut [u8],
    ) -> Reel
        requires { (1 ≤ few) × (32 ≤ length values.old) × (2 * length values.old ≤ length bytes.old) }
        ensures { Drained (length output.old) few self result }
    {
        let mut reel = self;
        for _turn in 0..self.stream.waiting.0 {
            if reel.stream.waiting.0 < few || reel.has_failed() {
                break;
            }
            reel = reel.write_out(writer, output, values, bytes);
        }
        reel
    }
}
