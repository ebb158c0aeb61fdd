// Prints the figures of docs/RULES.md without a star: samples in, and one step of the stretch over silence, whose
// period is 20 frames at 8,000 Hz, at three local speeds. The starred figures are computed in proofs/Starred.antt.
#![tactic(auto)]

use frames::{Frames, Samples};
use period::PeriodRecord;
use search::Ties;
use stretch::{ReadyCall, Stretch, StretchCall, Target};

const RATE: u32 = 8000;

// The frames that a search at this rate looks at.
const REQUIRED: usize = 246;

// Each part is written by a call of its own.
fn print_stretch(rt: &impl Print, answer: Stretch) {
    let _ = print!(rt; " frames made {}", answer.made.0);
    let _ = print!(rt; ", used {}", answer.used.0);
    if answer.stalled {
        let _ = rt.print(", stalled");
    }
    let _ = rt.print("\n");
}

// A stretch of as much silence as one step needs, at a local speed.
fn print_step(rt: &impl Print, label: &str, speed: f32) {
    let input = [0i16; REQUIRED];
    let mut stage = [0i16; REQUIRED];
    let mut scratch = [0i16; REQUIRED];
    let ready = ReadyCall {
        call: StretchCall {
            channels: 1,
            rate: RATE as usize,
            sample_period: floats::settings::sample_period(RATE),
            speed,
            input_play_time: 1.0,
            held: Frames(REQUIRED),
            step_over: false,
            ties: Ties::Smallest,
        },
    };
    let prev = PeriodRecord {
        period: 0,
        min_diff: 0,
    };
    let target = Target {
        to: Samples(0),
        room: Frames(REQUIRED),
        most: Frames(REQUIRED),
    };
    let _ = rt.print(label);
    match stretch::change_speed(&input, ready, 0.0, prev, &mut stage, target, &mut scratch) {
        Some(answer) => print_stretch(rt, answer),
        None => {
            let _ = rt.print(" too many\n");
        }
    }
}

fn main(rt: HostRuntime) {
    let _ = println!(&rt; "sample 1.0: {}", floats::samples::sample_in(1.0));
    let _ = println!(&rt; "sample -0.5: {}", floats::samples::sample_in(-0.5));
    print_step(&rt, "s = 21:", 21.0);
    print_step(&rt, "s = 22:", 22.0);
    print_step(&rt, "s = 0.25:", 0.25);
}
