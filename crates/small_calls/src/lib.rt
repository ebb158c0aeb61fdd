// The calls of stored runs that are lent no area, each with its answer printed (docs/VECTORS.md); and streams that no
// call hands back.
#![tactic(auto)]

mod edits;

pub use edits::with_field;
use printing::{print_count, print_refused};
use scripts::sums::{float, word};
use scripts::text::Line;
use stream::{Setting, SonicStream, Ties};

// The stream before the first opening: that of a refused one.
pub fn unopened() -> SonicStream {
    SonicStream::new(0, 0).unwrap_or_else(|refused| refused.stream)
}

// Opens a stream. A refusal carries the number given.
fn open(rt: &impl Print, rate: u32, channels: u32, ties: u32) -> SonicStream {
    SonicStream::with_ties(rate, channels, Ties::from(ties)).unwrap_or_else(|refused| {
        print_refused(rt, refused.refusal);
        print_count(rt, refused.given as u64);
        refused.stream
    })
}

// Changes a setting.
fn set(rt: &impl Print, stream: SonicStream, setting: Setting) -> SonicStream {
    stream.set(setting).unwrap_or_else(|refused| {
        print_refused(rt, refused.refusal);
        refused.stream
    })
}

// Asks for the frames available.
fn available(rt: &impl Print, stream: SonicStream) -> SonicStream {
    match stream.available_frames() {
        Ok(n) => {
            print_count(rt, n.0 as u64);
            stream
        }
        Err(refused) => {
            print_refused(rt, refused.refusal);
            refused.stream
        }
    }
}

// Makes the call of a line that names no areas. The letters are bytes here and in `replay`, as docs/VECTORS.md has them:
// an enum would list them once more.
pub fn small_call(rt: &impl Print, stream: SonicStream, line: Line) -> SonicStream {
    let [first, second, third, ..] = line.numbers;
    let value = word(first);
    match line.letter {
        b'o' => open(rt, value, word(second), word(third)),
        b's' => set(rt, stream, Setting::Speed(float(value))),
        b'p' => set(rt, stream, Setting::Pitch(float(value))),
        b'v' => set(rt, stream, Setting::Volume(float(value))),
        b't' => set(rt, stream, Setting::StepOver(value > 0)),
        _ => available(rt, stream),
    }
}
