// The calls, with the areas lent as far as the lengths say. Each prints what the call answers and hands back its
// stream.
use crate::lent::{LentLengths, of_slice};
use frames::Frames;
use printing::{print_count, print_refused, print_told, print_word};
use scripts::signal::{Signal, fill};
use scripts::sums::slice_sum;
use sonic::{Gave, Refused, Wrote};
use stream::SonicStream;

// What the places of a read's slice hold before it.
const UNREAD: f32 = 0.5;

// Prints the answer of a write or a flush.
fn wrote(rt: &impl Print, answer: Result<Wrote, Refused>) -> SonicStream {
    match answer {
        Ok(wrote) => {
            print_told(rt, wrote.told);
            wrote.stream
        }
        Err(refused) => {
            print_refused(rt, refused.refusal);
            refused.stream
        }
    }
}

// Makes the first `count` of the samples, or all of them where there are fewer, those of a signal.
pub fn make(signal: Signal, count: usize, samples: &mut [f32]) {
    let n = of_slice(count, samples);
    fill(signal, &mut samples[..n]);
}

// Writes the first `count` of the samples, or all of them where there are fewer. The program's arrays one by one, as
// the calls take them.
pub fn write(
    rt: &impl Print,
    stream: SonicStream,
    count: usize,
    samples: &[f32],
    lent: LentLengths,
    input: &mut [i16],
    stage: &mut [i16],
    output: &mut [i16],
    scratch: &mut [i16],
) -> SonicStream {
    let n = of_slice(count, samples);
    let a = of_slice(lent.input, input);
    let b = of_slice(lent.stage, stage);
    let c = of_slice(lent.output, output);
    let d = of_slice(lent.scratch, scratch);
    let answer = sonic::write_f32(
        stream,
        &samples[..n],
        &mut input[..a],
        &mut stage[..b],
        &mut output[..c],
        &mut scratch[..d],
    );
    wrote(rt, answer)
}

// Flushes. The areas are cut as in `write`: one function of both would hand four borrows back.
pub fn flush(
    rt: &impl Print,
    stream: SonicStream,
    lent: LentLengths,
    input: &mut [i16],
    stage: &mut [i16],
    output: &mut [i16],
    scratch: &mut [i16],
) -> SonicStream {
    let a = of_slice(lent.input, input);
    let b = of_slice(lent.stage, stage);
    let c = of_slice(lent.output, output);
    let d = of_slice(lent.scratch, scratch);
    let answer = sonic::flush(
        stream,
        &mut input[..a],
        &mut stage[..b],
        &mut output[..c],
        &mut scratch[..d],
    );
    wrote(rt, answer)
}

// Prints the answer of a read.
fn gave(rt: &impl Print, answer: Result<Gave, Refused>) -> SonicStream {
    match answer {
        Ok(gave) => {
            print_count(rt, gave.frames.0 as u64);
            gave.stream
        }
        Err(refused) => {
            print_refused(rt, refused.refusal);
            refused.stream
        }
    }
}

// Reads at most `most` frames into a slice of `count` samples, or of as many as there is room for, and prints the sum
// over the whole slice.
pub fn read(
    rt: &impl Print,
    stream: SonicStream,
    most: usize,
    count: usize,
    lent: LentLengths,
    samples: &mut [f32],
    output: &mut [i16],
) -> SonicStream {
    let n = of_slice(count, samples);
    let slice = &mut samples[..n];
    slice.fill(UNREAD);
    let c = of_slice(lent.output, output);
    let answer = sonic::read_f32(stream, Frames(most), slice, &mut output[..c]);
    let after = gave(rt, answer);
    print_word(rt, slice_sum(slice));
    after
}
