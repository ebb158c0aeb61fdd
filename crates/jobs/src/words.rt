// The arguments as the system gives them, by their places: the first behind the program's name is at 1.
ghost use Rattle.std.specs.Prelude.{◌≤◌, length};

use ports::naming;
use std::env::{Env, FillError};
use std::io::{Error, ErrorKind, Result};
use std::str;

// The most bytes of an argument that is no name.
pub(crate) const TEXT: usize = 32;

// An argument, read into a text: nothing if it is missing, or longer than the text. No Option: a missing argument, as
// an empty one, is no number, no option and no word that is asked for.
pub(crate) fn read_word<'a>(env: &impl Env, place: usize, text: &'a mut [u8]) -> &'a [u8]
    ensures { length result.now ≤ length text.old }
{
    let n = env.arg(place, text).unwrap_or(0);
    &text[..n]
}

// Whether an argument begins with two bytes. One that is longer than the text fills it.
pub(crate) fn begins(env: &impl Env, place: usize, with: &[u8]) -> bool {
    let mut text = [0u8; 2];
    let is_missing = matches!(env.arg(place, &mut text), Err(FillError::NotPresent));
    !is_missing && text.starts_with(with)
}

// Whether there is an argument at a place.
fn is_there(env: &impl Env, place: usize) -> bool {
    begins(env, place, b"")
}

// How many arguments there are, the program's name among them. The last place is never come to: a proved search has to
// end.
pub(crate) fn count(env: &impl Env) -> usize {
    (0..usize::MAX)
        .find(|place| !is_there(env, *place))
        .unwrap_or(usize::MAX)
}

// An argument that is the name of a file: empty if there is none. A name is text. No Option: an empty name is refused
// as one that is missing.
pub fn name<'a>(env: &impl Env, place: usize, text: &'a mut [u8]) -> Result<&'a str> {
    let n = match env.arg(place, text) {
        Ok(n) => n,
        Err(FillError::NotPresent) => 0,
        Err(FillError::TooLong) => return Err(Error::from_raw_os_error(naming::TOO_LONG)),
    };
    str::from_utf8(&text[..n]).map_err(|_| Error::new(
        ErrorKind::InvalidFilename,
        "a name has to be UTF-8 text",
    ))
}
