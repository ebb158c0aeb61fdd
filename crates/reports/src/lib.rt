// What is told of a run of the skim tool at its end, on standard error: what became of it; the last line is that of
// `summary`. `specs/Report.antt` says what the status is.
#![tactic(auto)]

mod stalls;
mod summary;

ghost use Rattle.std.specs.Prelude.{◌≡◌};
ghost use Rattle.reports.specs.Report.{whole_of, status_of};

use passes::Passes;
use plans::Opening;
use ports::Ports;
use reels::reel::Reel;
use reels::state::RunState;
use say::{Status, waves};
use std::io::{Error, ErrorKind};
use stream::Refusal;

// The time of so many frames, in seconds. Each piece of it is a write of its own.
fn say_time(rt: &impl Eprint, frames: u64, opening: Opening) {
    let rate = opening.rate;
    let thousandths = frames % rate * 1000 / rate;
    say::number(rt, " (", frames / rate);
    say::number(rt, ".", thousandths / 100);
    say::number(rt, "", thousandths / 10 % 10);
    say::number(rt, "", thousandths % 10);
    say::text(rt, " s)");
}

// A frame, and its time.
pub(crate) fn say_place(rt: &impl Eprint, frame: u64, opening: Opening) {
    say::number(rt, " frame ", frame);
    say_time(rt, frame, opening);
}

// A text, so many frames behind it, and their time.
fn say_frames(rt: &impl Eprint, before: &str, frames: u64, opening: Opening) {
    say::number(rt, before, frames);
    say::text(rt, " frames");
    say_time(rt, frames, opening);
}

// The bytes at the end that are no whole frame, if there are any.
fn say_partial(rt: &impl Eprint, bytes: u64) {
    if bytes > 0 {
        say::number(
            rt,
            "skim: left out, being no whole frame: the last bytes, ",
            bytes,
        );
        say::text(rt, "\n");
    }
}

// The periods that writes passed over, and the frames of which nothing came out.
fn say_passes(rt: &impl Eprint, passes: Passes, opening: Opening) {
    if passes.periods > 0 {
        say::number(
            rt,
            "skim: pitch periods passed over, since they give no frame at this speed: ",
            passes.periods,
        );
        say::text(rt, "\n");
    }
    if passes.frames > 0 {
        let longest = passes.longest;
        say_frames(rt, "skim: nothing came out of ", passes.frames, opening);
        say_frames(
            rt,
            " of the reel; longest stretch: ",
            longest.frames,
            opening,
        );
        say::text(rt, " from");
        say_place(rt, longest.first, opening);
        say::text(rt, " on\n");
    }
}

// What the flush passed over, and what it gave.
fn say_flush(rt: &impl Eprint, reel: Reel, opening: Opening) {
    let held = reel.frames_in.wrapping_sub(reel.from);
    say_frames(rt, "skim: the flush of the last ", held, opening);
    say::number(rt, " gave ", reel.gave);
    say::number(
        rt,
        " frames; pitch periods that it passed over, those of its own silence included: ",
        reel.passed,
    );
    say::text(rt, "\n");
}

// The stretched frames that a flush cleared because it gave none.
fn say_cleared(rt: &impl Eprint, reel: Reel) {
    if reel.flushed && reel.gave == 0 && reel.tail.0 > 0 {
        say::number(
            rt,
            "skim: since the flush gave no frame, stretched frames before it are not in the track either: ",
            reel.tail.0 as u64,
        );
        say::text(rt, "\n");
    }
}

// A read or a write that failed, with what the system says of it. A run whose map was not taken is without one.
fn say_failure(ports: &Ports, reel: Reel, files: Files) {
    match reel.state {
        RunState::ReadFailed => fail(
            &ports.rt,
            "skim: standard input",
            "skim: the input file",
            files.named,
            ports.input.error(),
        ),
        RunState::WriteFailed if reel.map == files.map => fail(
            &ports.rt,
            "skim: standard output",
            "skim: the output file",
            files.named,
            ports.output.error(),
        ),
        RunState::WriteFailed => fail(&ports.rt, "skim: the map", "", false, ports.map.error()),
        _ => (),
    }
}

// How a run ended that stalled or was refused.
fn say_end(rt: &impl Eprint, reel: Reel, opening: Opening) {
    match reel.state {
        RunState::Stalled(at) => stalls::say_stall(rt, reel, at, opening),
        RunState::FlushStalled(at) => stalls::say_flush_stall(rt, reel, at, opening),
        RunState::Refused(Refusal::BadSize) => waves::say_too_long(rt),
        RunState::Refused(refusal) => say::refused(rt, refusal),
        _ => (),
    }
}

// The files of a run: the descriptor of the map, if one was wanted, whether input and output are files that were named,
// and why the sizes of a WAVE file on standard output could not be set, if they could not.
#[derive(Clone, Copy, Debug)]
pub struct Files {
    pub map: Option<u32>,
    pub named: bool,
    pub unset: Option<Error>,
}

// Tells what failed on a standard stream, or on the file that takes its place.
pub fn fail(rt: &impl Eprint, stream: &str, file: &str, named: bool, error: Option<Error>) {
    let name = if named { file } else { stream };
    let met = error.unwrap_or(Error::from(ErrorKind::Other));
    say::failure(rt, name, &met);
}

// Whether the track of a run is whole: nothing was refused, nothing failed, and the data chunk of a WAVE file came
// whole.
#[tactic(auto, unfolding(crate::specs::Report::whole_of))]
pub fn is_whole(reel: Reel) -> bool
    ensures { result ≡ whole_of reel }
{
    reel.source.left() == 0 && reel.state.is_sound()
}

// Tells what became of a run, and answers the status.
pub fn run(ports: &Ports, reel: Reel, opening: Opening, files: Files) -> Status
    ensures { result ≡ status_of reel }
{
    let rt = &ports.rt;
    say_failure(ports, reel, files);
    progress::end(ports, opening, reel.frames_in);
    if summary::is_cut(reel) {
        waves::say_cut(rt, reel.source.size(), reel.source.left());
    }
    if let Some(error) = files.unset {
        waves::say_unset(rt, &error);
    }
    say_partial(rt, reel.partial as u64);
    stalls::say_stalls(rt, reel, opening);
    say_end(rt, reel, opening);
    say_passes(rt, reel.passes, opening);
    if reel.flushed && reel.passed > 0 {
        say_flush(rt, reel, opening);
    }
    say_cleared(rt, reel);
    summary::told(rt, reel)
}
