// How far a run of the skim tool is, on a terminal.
#![tactic(auto)]

ghost use Rattle.std.specs.Prelude.{◌≡◌, ◌*◌, ◌/◌, ◌≤◌};

use plans::Opening;
use ports::Ports;
use reels::reel::Reel;
use std::time::{CpuClock, Duration};

// The processor time that the program has taken, in milliseconds and one more, so that it is never 0; 1 if it is not
// known.
fn taken(clock: &impl CpuClock) -> u64
    ensures { 1 ≤ result }
{
    let time = clock.process_cpu_time().unwrap_or(Duration::ZERO);
    u64::try_from(time.as_millis())
        .unwrap_or(0)
        .saturating_add(1)
}

// The whole minutes of so many frames.
fn minutes(frames: u64, opening: Opening) -> u64
    ensures { result ≡ frames / (60 * opening.rate) }
{
    frames / (60 * opening.rate)
}

// After a minute of the reel, and not after a failure, of which the system would say no more: the minutes done, and how
// many times shorter than them the processor time is. The line is written over, each part in a write of its own: no
// `eprint!` of all, since the program's writes stay.
pub fn show(ports: &Ports, reel: Reel, before: u64, opening: Opening) {
    if reel.has_failed() {
        return;
    }
    let done = minutes(reel.frames_in, opening);
    if done != minutes(before, opening) && ports.terminal {
        say::number(&ports.rt, "\rskim: ", done);
        say::number(&ports.rt, " min done, ", done * 60_000 / taken(&ports.rt));
        say::text(&ports.rt, " times real time");
    }
}

// Ends the line of the progress, if one was shown.
pub fn end(ports: &Ports, opening: Opening, frames: u64) {
    if minutes(frames, opening) > 0 && ports.terminal {
        let _ = eprintln!(ports.rt; "");
    }
}
