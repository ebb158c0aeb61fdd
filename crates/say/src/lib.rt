// What the skim tool tells, piece by piece; `waves` has what is told of WAVE files, and `status` how a run ends. That a
// write failed is not told.
#![tactic(auto)]

mod status;
pub mod waves;

pub use status::Status;
use std::io::{Cursor, Error, Write};
use std::str;
use stream::Refusal;

// Says a text on standard error.
pub fn text(rt: &impl Eprint, text: &str) {
    let _ = rt.eprint(text);
}

// Says a text and a number behind it on standard error.
pub fn number(rt: &impl Eprint, before: &str, n: u64) {
    let _ = eprint!(rt; "{before}{n}");
}

// Writes a line on standard output.
pub fn line(rt: &impl Print, text: &str) {
    let _ = rt.println(text);
}

// The most bytes of what the system says of an error.
const WORDS: usize = 320;

// Says what failed, and what the system says of it, without its number. What was written is taken by its position:
// std's Cursor gives no slice of it.
pub fn failure(rt: &impl Eprint, name: &str, error: &Error) {
    let mut words = Cursor::new([0u8; WORDS]);
    let _ = write!(words, "{error}");
    let end = words.position() as usize;
    let bytes = words.into_inner();
    let all = str::from_utf8(bytes.get(..end).unwrap_or(b"")).unwrap_or("");
    let said = all.split_once(" (os error ").map_or(all, |(said, _)| said);
    let _ = eprintln!(rt; "{name}: {said}");
}

// A refusal's number, and what it means.
pub fn refused(rt: &impl Eprint, refusal: Refusal) {
    number(rt, "skim: refused with number ", u32::from(refusal) as u64);
    let _ = eprintln!(rt; ": {refusal}");
}
