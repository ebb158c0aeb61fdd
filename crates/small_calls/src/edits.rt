// Streams that no call hands back: one field set to a value.
use scripts::sums::{float, word};
use stream::SonicStream;

// A stream with the field at a place of the struct set to a number, or a float to its bits. The places are numbers here,
// as docs/VECTORS.md counts them: names would be the fields' own once more.
pub fn with_field(mut stream: SonicStream, field: u64, value: u64) -> SonicStream {
    let w = word(value);
    let x = float(w);
    let n = value as usize;
    match field {
        0 => stream.rate = w,
        1 => stream.channels = w,
        2 => stream.speed = x,
        3 => stream.pitch = x,
        4 => stream.volume = x,
        5 => stream.sample_period = x,
        6 => stream.input_play_time = x,
        7 => stream.time_error = x,
        8 => stream.old_rate_position = n,
        9 => stream.new_rate_position = n,
        10 => stream.prev_period = n,
        11 => stream.prev_min_diff = n,
        12 => stream.held.0 = n,
        13 => stream.tail.0 = n,
        14 => stream.waiting.0 = n,
        15 => stream.balance.skipped = value,
        16 => stream.balance.inserted = value,
        17 => stream.step_over = w,
        _ => stream.ties = w,
    }
    stream
}
