// What is told of stalls. A stall may be left by a later write: s of a call, which is rounded, changes with each.
use crate::say_place;
use plans::Opening;
use reels::reel::Reel;

// The writes that stalled, if any did.
pub(crate) fn say_stalls(rt: &impl Eprint, reel: Reel, opening: Opening) {
    if reel.stalls.count == 0 {
        return;
    }
    say::number(rt, "skim: writes that stalled: ", reel.stalls.count);
    say::text(rt, ", the first at");
    say_place(rt, reel.stalls.first, opening);
    if reel.state.is_fine() {
        say::text(rt, "; a later write or the flush left the stall");
    }
    say::text(rt, "\n");
}

// Where a run that ended stalled did so, and what came of the rest.
pub(crate) fn say_stall(rt: &impl Eprint, reel: Reel, at: u64, opening: Opening) {
    let after = reel.frames_in.wrapping_sub(at);
    say::text(rt, "skim: stalled at");
    say_place(rt, at, opening);
    say::text(
        rt,
        ": the pitch period there gives no frame, and no later write left the stall\n",
    );
    if reel.flushed {
        say::number(rt, "skim: the flush stalled too: of the last ", after);
        say::text(rt, " frames not all came out\n");
        return;
    }
    say::number(rt, "skim: not skimmed: the ", after);
    say::number(rt, " frames from there on, and ", reel.stream.tail.0 as u64);
    say::text(rt, " stretched frames before them, in the tail\n");
}

// Where the flush of a run stalled whose writes had left every stall.
pub(crate) fn say_flush_stall(rt: &impl Eprint, reel: Reel, at: u64, opening: Opening) {
    let after = reel.frames_in.wrapping_sub(at);
    say::text(rt, "skim: the flush stalled at or after");
    say_place(rt, at, opening);
    say::number(rt, ": of the last ", after);
    say::text(rt, " frames not all came out\n");
}
