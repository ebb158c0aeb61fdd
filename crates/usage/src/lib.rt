// The usage, on standard output, and what is said of bad usage.
#![tactic(auto)]

use jobs::Misuse;

// The lines of the usage.
const USAGE: [&str; 33] = [
    "usage: skim [--status] [OPTION]... [[RATE CHANNELS] SPEED PITCH [VOLUME]] < IN > OUT",
    "       skim [--status] [OPTION]... IN.wav OUT.wav [SPEED PITCH [VOLUME]]",
    "Changes speed, pitch and volume of 16-bit sound: of a WAVE file if it is named or begins with RIFF, and",
    "then OUT is one too; otherwise of raw little-endian PCM, its channels interleaved.",
    "  RATE      frames in a second, 1000 to 500000; 8000 if it is left out. Of a WAVE file its own is used",
    "  CHANNELS  1 to 32; 1 if it is left out. Of a WAVE file its own are used",
    "  SPEED     0.05 to 20, with digits before and behind the point, as 20 or 1.25",
    "  PITCH     0.05 to 20",
    "  VOLUME    0.01 to 100, 1 if it is left out",
    "With no numbers: SPEED 20, PITCH 0.5. A first argument that is no number is a name; a file whose name is",
    "a number is given as ./20. --help tells this, --version the version.",
    "A pitch period that is too short to give a frame at this speed is passed over: nothing comes out of it.",
    "  --as-original  stalls at such a period, as the Rust original does. Each later write tries again, a frame",
    "                 further, and may leave the stall; what a write made before it stalled comes again",
    "  --longest-period",
    "                 takes the longest of the pitch periods that fit equally well, not the shortest",
    "  --raw          takes standard input for raw PCM, whatever it begins with",
    "  --map FILE     writes to FILE a line for each stretch of the reel of which nothing came out:",
    "                 first_frame, frames, start_seconds, length_seconds, with tabs between",
    "Standard error tells what was passed over, where the stretch stalled, and what was left out. Its last",
    "line is for scripts:",
    "  skim: frames_in=N frames_out=N stalls=N stalled_at=FRAME flush_stalled_at=FRAME refusal=N skipped=N",
    "  inserted=N passed=N passed_frames=N status=N",
    "stalls: writes that stalled. stalled_at: the first frame held before the first of them. flush_stalled_at:",
    "that of a flush that stalled, where no stall of a write was left open. FRAME is none where none stalled.",
    "skipped, inserted: frames of pitch periods taken out and put in.",
    "passed: pitch periods passed over before the flush. passed_frames: frames of the reel of which nothing",
    "came out, without those behind a stall.",
    "status: 0 fine; 1 a stall that was not left, a refusal, a partial frame at the end, or a read or a write",
    "failed; 2 bad usage or a file that cannot be opened, and then nothing was skimmed.",
    "A named OUT.wav is written as OUT.wav.PID.part and renamed at the end; where a file is refused or a read",
    "or a write failed, it is removed, and an OUT.wav that was there stays.",
    "With --status the status is written to descriptor 3 too.",
];

pub fn version(rt: &impl Print) {
    say::line(rt, "skim (kelpladder) 0.4.0");
}

pub fn usage(rt: &impl Print) {
    for line in USAGE {
        say::line(rt, line);
    }
}

// What of the arguments cannot be used.
pub fn wrong_argument(rt: &impl Eprint, misuse: Misuse) {
    let told = match misuse {
        Misuse::Count => "skim: give two to five numbers behind the options, or none\n",
        Misuse::Rate => "skim: RATE has to be a whole number from 1000 to 500000\n",
        Misuse::Channels => "skim: CHANNELS has to be a whole number from 1 to 32\n",
        Misuse::Speed => "skim: SPEED has to be a number from 0.05 to 20, as 20 or 1.25\n",
        Misuse::Pitch => "skim: PITCH has to be a number from 0.05 to 20, as 2 or 0.5\n",
        Misuse::Volume => "skim: VOLUME has to be a number from 0.01 to 100, as 2 or 0.5\n",
        Misuse::Option => {
            "skim: before the numbers may stand --status, the first, and the options that --help tells, each once\n"
        }
        Misuse::Map => "skim: --map has to be followed by the name of a file\n",
        Misuse::Names => {
            "skim: with names give IN.wav OUT.wav and SPEED PITCH [VOLUME] or no numbers, and no --raw\n"
        }
    };
    say::text(rt, told);
}

pub fn no_room(rt: &impl Eprint) {
    say::text(
        rt,
        "skim: no room for this job in the fixed areas: a lower rate, fewer channels or a higher speed need less\n",
    );
}

pub fn closed_stream(rt: &impl Eprint) {
    say::text(
        rt,
        "skim: --map needs standard input, output and error to be open\n",
    );
}
