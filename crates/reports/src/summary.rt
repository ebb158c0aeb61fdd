// The last line, for scripts.
ghost use Rattle.std.specs.Prelude.{◌≡◌};
ghost use Rattle.reports.specs.Report.{status_of};

use reels::reel::Reel;
use reels::state::RunState;
use say::Status;
use stream::Refusal;

// Whether bytes of the data chunk of a WAVE file did not come, though no read or write failed.
pub(crate) fn is_cut(reel: Reel) -> bool {
    reel.source.left() > 0 && !reel.has_failed()
}

// Fine, or incomplete by a partial frame, a data chunk that is cut, a failed read or write, a refusal, or a run that
// ended stalled.
#[tactic(auto, unfolding(crate::specs::Report::status_of))]
fn status(reel: Reel) -> Status
    ensures { result ≡ status_of reel }
{
    if reel.partial == 0 && reel.source.left() == 0 && reel.state.is_fine() {
        Status::Fine
    } else {
        Status::Incomplete
    }
}

fn say_frame(rt: &impl Eprint, name: &str, at: Option<u64>) {
    match at {
        Some(frame) => say::number(rt, name, frame),
        None => {
            say::text(rt, name);
            say::text(rt, "none");
        }
    }
}

// Where the flush stalled.
fn flush_stall(state: RunState) -> Option<u64> {
    match state {
        RunState::FlushStalled(at) => Some(at),
        _ => None,
    }
}

// The refusal of a run: that of a call of the stream, or of a WAVE file that is cut.
fn refusal(reel: Reel) -> Option<Refusal> {
    match reel.state {
        RunState::Refused(refusal) => Some(refusal),
        _ => is_cut(reel).then_some(Refusal::BadSize),
    }
}

fn say_line(rt: &impl Eprint, reel: Reel, status: Status) {
    let balance = reel.stream.balance;
    let stalls = reel.stalls;
    let refusal = refusal(reel).map_or(Refusal::ACCEPTED, u32::from);
    let stalled = (stalls.count > 0).then_some(stalls.first);
    say::number(rt, "skim: frames_in=", reel.frames_in);
    say::number(rt, " frames_out=", reel.frames_out);
    say::number(rt, " stalls=", stalls.count);
    say_frame(rt, " stalled_at=", stalled);
    say_frame(rt, " flush_stalled_at=", flush_stall(reel.state));
    say::number(rt, " refusal=", refusal as u64);
    say::number(rt, " skipped=", balance.skipped);
    say::number(rt, " inserted=", balance.inserted);
    say::number(rt, " passed=", reel.passes.periods);
    say::number(rt, " passed_frames=", reel.passes.frames);
    say::number(rt, " status=", u8::from(status) as u64);
    say::text(rt, "\n");
}

// Tells the line, and answers the status.
pub(crate) fn told(rt: &impl Eprint, reel: Reel) -> Status
    ensures { result ≡ status_of reel }
{
    let status = status(reel);
    say_line(rt, reel, status);
    status
}
