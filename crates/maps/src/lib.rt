// What is noted of frames of a reel of which nothing came out, and the map of them, written line by line.
// `specs/Maps.antt` says what is noted.
#![tactic(auto)]

ghost use Rattle.std.specs.Prelude.{◌≡◌};
ghost use Rattle.reels.specs.Reels.{first_held};
ghost use Rattle.reels.specs.States.{fine};
ghost use Rattle.maps.specs.Maps.{span_of, noted_write, noted_flush, MapWritten, unskimmed_of};

use passes::{Passes, Span, map};
use plans::Opening;
use ports::Ports;
use reels::reel::Reel;
use reels::state::RunState;
use std::io;

// Frames of a reel, by the first of them and the first behind them.
fn span(first: u64, end: u64) -> Span
    ensures { result ≡ span_of first end }
{
    Span {
        first,
        frames: end.saturating_sub(first),
    }
}

// After a write: if it passed over a period, nothing came of the frames that left the input.
pub fn noted_write(reel: Reel) -> Passes
    ensures { result ≡ noted_write reel.passes reel.passed reel.from
        (first_held reel.written reel.stream) }
{
    if reel.passed == 0 {
        return reel.passes;
    }
    reel.passes
        .note(reel.passed, span(reel.from, reel.first_held()))
}

// After the flush: if no frame waits, nothing came of the frames that were held. Those behind a stall are not noted.
pub fn noted_flush(reel: Reel) -> Passes
    ensures { result ≡ noted_flush reel.passes (fine reel.state) reel.stream.waiting.0 reel.from
        reel.written }
{
    if !reel.state.is_fine() || reel.stream.waiting.0 > 0 {
        return reel.passes;
    }
    reel.passes.note(0, span(reel.from, reel.written))
}

// After a part of the map was written, or was not taken: that is a failure, and no more is written. `MapWritten`
// relates a reel before and after, which no type holds.
fn mapped(reel: Reel, written: io::Result<()>) -> Reel
    ensures { MapWritten reel result }
{
    match written {
        Ok(()) => reel,
        Err(_) => Reel { map: None, ..reel }.stopped(RunState::WriteFailed),
    }
}

// Begins the map, if one is wanted.
pub fn begin(reel: Reel, ports: &mut Ports) -> Reel
    ensures { MapWritten reel result }
{
    if reel.map.is_none() {
        return reel;
    }
    mapped(reel, map::write_head(&mut ports.map))
}

// Writes the line of a stretch, if a map is wanted and the stretch has a frame.
fn put_line(reel: Reel, stretch: Span, opening: Opening, ports: &mut Ports) -> Reel
    ensures { MapWritten reel result }
{
    if reel.map.is_none() || stretch.frames == 0 {
        return reel;
    }
    mapped(reel, map::write_line(&mut ports.map, stretch, opening.rate))
}

// Writes the line of what was the last stretch before a call, if another has begun.
pub fn put_ended(reel: Reel, before: Span, opening: Opening, ports: &mut Ports) -> Reel
    ensures { MapWritten reel result }
{
    if reel.passes.last.first == before.first {
        return reel;
    }
    put_line(reel, before, opening, ports)
}

// The frames from a stall on, if the run ended stalled and its flush, if it had one, gave no frame; otherwise none.
fn unskimmed(reel: Reel) -> Span
    ensures { result ≡ unskimmed_of reel }
{
    match reel.state {
        RunState::Stalled(at) if reel.gave == 0 => span(at, reel.frames_in),
        _ => Span::NONE,
    }
}

// Ends the map, with what was the last stretch before the flush: writes its line if another has begun, that of the
// last stretch, and that of the frames from a stall on.
pub fn end(reel: Reel, before: Span, opening: Opening, ports: &mut Ports) -> Reel
    ensures { MapWritten reel result }
{
    let last = reel.passes.last;
    let after = put_line(
        put_ended(reel, before, opening, ports),
        last,
        opening,
        ports,
    );
    put_line(after, unskimmed(reel), opening, ports)
}
