// What is told of WAVE files.
ghost use Rattle.std.specs.Prelude.{◌≡◌};
ghost use Rattle.say.specs.declared.status.Status.TheVariants.{Incomplete};

use crate::{Status, failure, number, refused, text};
use chunks::Format;
use std::io::{Error, ErrorKind};
use stream::Refusal;

// The least size that programs write to a pipe, since they cannot know the right one: 0x7ffff000 by sox, 2^32 − 1 by
// ffmpeg.
const PIPE_SIZE: u64 = 0x7fff_f000;

// A number and a text behind it.
fn say_count(rt: &impl Eprint, n: u64, behind: &str) {
    number(rt, "", n);
    text(rt, behind);
}

// A WAVE file whose samples are read.
pub fn say_wave(rt: &impl Eprint, format: Format, size: u64) {
    text(rt, "skim: WAVE of 16 bits: ");
    say_count(rt, format.rate as u64, " frames a second, channels: ");
    say_count(rt, format.channels as u64, ", bytes of samples: ");
    say_count(rt, size, "\n");
}

// The size of a data chunk that ends past the file. 0 is that of none: it ends past no file.
fn say_size(rt: &impl Eprint, size: u64) {
    if size == 0 {
        return;
    }
    number(rt, "skim: the size of its data chunk is ", size);
    if size < PIPE_SIZE {
        text(rt, " bytes\n");
        return;
    }
    text(
        rt,
        ", as programs write to a pipe: let sox or ffmpeg write to a file, or use raw PCM:\n",
    );
    text(
        rt,
        "skim: sox IN.wav -t raw -e signed-integer -b 16 - | skim --raw RATE CHANNELS SPEED PITCH > OUT.pcm\n",
    );
}

// The format of samples that are not read, and commands that make 16-bit PCM of them.
fn say_format(rt: &impl Eprint, format: Option<Format>) {
    let Some(format) = format else {
        text(
            rt,
            "skim: it has no fmt chunk of 16 bytes or more before its data chunk, or neither\n",
        );
        return;
    };
    if chunks::is_read(format) {
        text(rt, "skim: it has no data chunk\n");
        return;
    }
    number(
        rt,
        "skim: its first fmt chunk has the tag ",
        format.tag as u64,
    );
    number(rt, ", bits: ", format.bits as u64);
    number(rt, ", frames a second: ", format.rate as u64);
    number(rt, ", channels: ", format.channels as u64);
    text(rt, "\n");
    if format.tag != 1 || format.bits != 16 {
        text(
            rt,
            "skim: to convert it: sox IN.wav -t wavpcm -e signed-integer -b 16 OUT.wav, or, up to 48000 frames a\n",
        );
        text(
            rt,
            "skim: second and two channels, ffmpeg -i IN.wav -c:a pcm_s16le OUT.wav\n",
        );
    }
}

// A file that is refused before anything is written: the number and what it means, what helps, and the last line.
pub fn say_refused(rt: &impl Eprint, refusal: Refusal, format: Option<Format>, size: u64) -> Status
    ensures { result ≡ Incomplete }
{
    refused(rt, refusal);
    match refusal {
        Refusal::BadSize => say_size(rt, size),
        Refusal::BadFormat => say_format(rt, format),
        _ => (),
    }
    number(rt, "skim: refusal=", u32::from(refusal) as u64);
    text(rt, " status=1\n");
    Status::Incomplete
}

// A data chunk of which so many bytes did not come.
pub fn say_cut(rt: &impl Eprint, size: u64, left: u64) {
    refused(rt, Refusal::BadSize);
    say_size(rt, size);
    number(
        rt,
        "skim: bytes of its data chunk that did not come: ",
        left,
    );
    text(rt, "\n");
}

// A track that is too long for a WAVE file. The number stands in the text: one write tells it.
pub fn say_too_long(rt: &impl Eprint) {
    text(
        rt,
        "skim: refused with number 9: the track is longer than the sizes of a WAVE file can tell\n",
    );
}

// A head on standard output whose sizes were not set, and why: it cannot be sought, or what the system says.
pub fn say_unset(rt: &impl Eprint, error: &Error) {
    match error.kind() {
        ErrorKind::NotSeekable => text(
            rt,
            "skim: standard output cannot be sought: the sizes in the WAVE head are those of a pipe, not the track's\n",
        ),
        _ => failure(
            rt,
            "skim: the sizes in the WAVE head are those of a pipe, not the track's: standard output as /proc/self/fd/1",
            error,
        ),
    }
}
