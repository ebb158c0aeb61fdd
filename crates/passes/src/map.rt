// The map: a text with a line for each stretch of a reel of which nothing came out, in frames and in seconds.
ghost use Rattle.std.specs.Prelude.{◌+◌, ◌≤◌, length};

use crate::Span;
use crate::seconds::Seconds;
use std::io;
use std::io::Write;

// The most bytes of a line are 92: two counts of 20 digits, two times of 24, and a byte behind each.
const LINE: usize = 92;

// The digit of a number's last place.
fn digit(n: u64) -> u8 {
    b'0' + (n % 10) as u8
}

// Puts a count into a line from `at` on, and answers where it ends.
fn put_count(n: u64, line: &mut [u8], at: usize) -> usize
    requires { at + 20 ≤ length line.old }
    ensures { result ≤ at + 20 }
{
    let digits = n.checked_ilog10().map_or(1, |most| most as usize + 1);
    let end = at + digits;
    let mut rest = n;
    for place in (at..end).rev() {
        line[place] = digit(rest);
        rest /= 10;
    }
    end
}

// Puts a time into a line from `at` on, and answers where it ends.
fn put_seconds(time: Seconds, line: &mut [u8], at: usize) -> usize
    requires { at + 24 ≤ length line.old }
    ensures { result ≤ at + 24 }
{
    let point = put_count(time.whole, line, at);
    line[point] = b'.';
    line[point + 1] = digit(time.thousandths / 100);
    line[point + 2] = digit(time.thousandths / 10);
    line[point + 3] = digit(time.thousandths);
    point + 4
}

// Writes the line of a stretch, in one call: a map that takes no more is left at the end of a line. Not by `writeln!`:
// its contract does not say that a line fits.
pub fn write_line<W: Write>(to: &mut W, span: Span, rate: u64) -> io::Result<()>
    requires { (1 ≤ rate) × (rate ≤ 500000) }
{
    let mut line = [0u8; LINE];
    let first = put_count(span.first, &mut line, 0);
    line[first] = b'\t';
    let frames = put_count(span.frames, &mut line, first + 1);
    line[frames] = b'\t';
    let start = put_seconds(Seconds::of(span.first, rate), &mut line, frames + 1);
    line[start] = b'\t';
    let end = put_seconds(Seconds::of(span.frames, rate), &mut line, start + 1);
    line[end] = b'\n';
    to.write_all(&line[..end + 1])
}

// Writes the names of the columns.
pub fn write_head<W: Write>(to: &mut W) -> io::Result<()> {
    to.write_all(b"first_frame\tframes\tstart_seconds\tlength_seconds\n")
}
