// Lines of a letter and up to five numbers. A number follows one space; it is decimal, or hexadecimal behind an `x`.
ghost use Rattle.std.specs.Prelude.{◌≡◌, ◌+◌, ◌<◌, ◌≤◌, length, IfSome};

// Digits join a number while it is at most this, so that it does not pass 64 bits.
const MOST_DECIMAL: u64 = 1_000_000_000_000_000_000;

const MOST_HEXADECIMAL: u64 = 0x0fff_ffff_ffff_ffff;

// One line: its letter, and its numbers, 0 for those that it lacks. A number that a line lacks is 0, as docs/VECTORS.md
// has it.
#[derive(Clone, Copy, Debug)]
pub struct Line {
    pub letter: u8,
    pub numbers: [u64; 5],
}

// The value of a digit. Those from `a` on count in a decimal number, too. Not `from_str_radix`: letters count in
// decimal numbers too, and what does not fit is left out, not refused.
fn digit(byte: u8) -> Option<u64>
    ensures { IfSome result (λ d. d < 16) }
{
    match byte {
        b'0'..=b'9' => Some((byte - b'0') as u64),
        b'a'..=b'f' => Some((byte - b'a') as u64 + 10),
        _ => None,
    }
}

// A number with one digit more.
fn joined(value: u64, digit: u64, hexadecimal: bool) -> u64
    requires { digit < 16 }
{
    if hexadecimal && value <= MOST_HEXADECIMAL {
        value * 16 + digit
    } else if !hexadecimal && value <= MOST_DECIMAL {
        value * 10 + digit
    } else {
        value
    }
}

// The number of the digits that a text begins with, and the text behind them.
fn digits(text: &[u8], hexadecimal: bool) -> (u64, &[u8])
    ensures { length result.1.now ≤ length text.now }
{
    let mut value = 0;
    for (i, b) in text.iter().enumerate() {
        let Some(next) = digit(*b) else {
            return (value, &text[i..]);
        };
        value = joined(value, next, hexadecimal);
    }
    (value, &[])
}

// The number that a text begins with, and the text behind it.
fn number(text: &[u8]) -> (u64, &[u8])
    ensures { length result.1.now ≤ length text.now }
{
    let start = text.strip_prefix(b" ").unwrap_or(text);
    match start.strip_prefix(b"x") {
        Some(first) => digits(first, true),
        None => digits(start, false),
    }
}

// The first line of a text, and the text behind it. A line feed ends a line, but not as its letter.
pub fn split_line(text: &[u8]) -> (&[u8], &[u8])
    requires { 0 < length text.now }
    ensures some { 0 < length result.0.now }
    ensures whole { length result.0.now + length result.1.now ≡ length text.now }
{
    match text[1..].iter().position(|b| *b == b'\n') {
        Some(n) => text.split_at(n + 2),
        None => (text, &[]),
    }
}

// A line's letter and numbers.
pub fn parse(line: &[u8]) -> Line
    requires { 0 < length line.now }
{
    let mut numbers = [0; 5];
    let mut text = &line[1..];
    for value in numbers.iter_mut() {
        let (next, behind) = number(text);
        *value = next;
        text = behind;
    }
    Line {
        letter: line[0],
        numbers,
    }
}
