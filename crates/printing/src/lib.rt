// An answer's line of stored runs (docs/VECTORS.md): what a call answers, then every field of the stream that it hands
// back, and the sums over the samples kept.
#![tactic(auto)]

use fill::{Outcome, Told};
use frames::Frames;
use scripts::sums::{area_sum, bits};
use stream::{Balance, Refusal, SonicStream};

// Prints bytes as they are. Here and below, a write that fails is passed over, and each piece is a write of its own, as
// what reads the program's output may see.
pub fn print(rt: &impl Print, text: &[u8]) {
    let _ = rt.write_all(text);
}

// Prints a space and a count, or the number of a refusal or an outcome, in decimal.
pub fn print_count(rt: &impl Print, n: u64) {
    let _ = print!(rt; " {n}");
}

// Prints a space and a word in hexadecimal.
pub fn print_word(rt: &impl Print, n: u32) {
    let _ = print!(rt; " {n:08x}");
}

// Prints the bits of a float.
fn print_float(rt: &impl Print, x: f32) {
    print_word(rt, bits(x));
}

// Prints a space and a count of frames.
fn print_frames(rt: &impl Print, n: Frames) {
    print_count(rt, n.0 as u64);
}

// Prints a refusal with its number.
pub fn print_refused(rt: &impl Print, refusal: Refusal) {
    print(rt, b" refused");
    print_count(rt, refusal as u64);
}

// The word of an outcome, behind a space. `fill` has no Display of it: these are words of stored runs alone.
fn word_of(outcome: Outcome) -> &'static [u8] {
    match outcome {
        Outcome::Empty => b" empty",
        Outcome::Copied => b" copied",
        Outcome::Waiting => b" waiting",
        Outcome::Stretched => b" stretched",
        Outcome::Stalled => b" stalled",
    }
}

// Prints what is told of a write or a flush.
pub fn print_told(rt: &impl Print, told: Told) {
    print(rt, word_of(told.outcome));
    print_count(rt, told.passed as u64);
    print_count(rt, told.sum as u64);
}

// Prints what follows from the opening, and speed, pitch and volume.
fn print_settings(rt: &impl Print, stream: SonicStream) {
    print(rt, b" |");
    print_count(rt, stream.rate as u64);
    print_count(rt, stream.channels as u64);
    print_float(rt, stream.speed);
    print_float(rt, stream.pitch);
    print_float(rt, stream.volume);
    print_float(rt, stream.sample_period);
}

// Prints times, positions and the period record.
fn print_state(rt: &impl Print, stream: SonicStream) {
    print(rt, b" |");
    print_float(rt, stream.input_play_time);
    print_float(rt, stream.time_error);
    print_count(rt, stream.old_rate_position as u64);
    print_count(rt, stream.new_rate_position as u64);
    print_count(rt, stream.prev_period as u64);
    print_count(rt, stream.prev_min_diff as u64);
}

// Prints how many frames a part of an area has, and their sum.
fn print_part(rt: &impl Print, count: Frames, channels: u32, area: &[i16]) {
    print_frames(rt, count);
    print_word(rt, area_sum(area, count, channels));
}

// Prints the totals.
fn print_balance(rt: &impl Print, balance: Balance) {
    print(rt, b" |");
    print_count(rt, balance.skipped);
    print_count(rt, balance.inserted);
}

// Prints whether the stream steps over, and its choice of ties.
fn print_choices(rt: &impl Print, stream: SonicStream) {
    print_count(rt, stream.step_over as u64);
    print_count(rt, stream.ties as u64);
}

// Prints the rest of an answer's line.
pub fn print_stream(
    rt: &impl Print,
    stream: SonicStream,
    input: &[i16],
    stage: &[i16],
    output: &[i16],
) {
    print_settings(rt, stream);
    print_state(rt, stream);
    print(rt, b" |");
    print_part(rt, stream.held, stream.channels, input);
    print_part(rt, stream.tail, stream.channels, stage);
    print_part(rt, stream.waiting, stream.channels, output);
    print_balance(rt, stream.balance);
    print_choices(rt, stream);
    print(rt, b"\n");
}
