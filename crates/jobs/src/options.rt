// The options, which stand before the names and numbers: `--as-original`, `--longest-period`, `--raw` and `--map FILE`,
// in any order, each once or not at all.
ghost use Rattle.std.specs.Prelude.{◌+◌, ◌≤◌};

use crate::words::{TEXT, begins, read_word};
use std::env::Env;

// How many options there are.
const OPTIONS: usize = 4;

// What was found so far: whether to stop as the original does, whether to find the longest of several periods with the
// same mean, whether the input is raw PCM, the place of the map's name, if there is one, and the arguments that stand
// before the next one, without the program's name.
#[derive(Clone, Copy, Debug, PartialEq, Eq)]
pub struct Options {
    pub as_original: bool,
    pub longest_period: bool,
    pub raw: bool,
    pub map: Option<usize>,
    pub before: usize,
}

// One option more, if the next argument is one that was not given yet.
fn one_more(env: &impl Env, found: Options) -> Options
    requires { found.before ≤ 8 }
    ensures { result.before ≤ found.before + 2 }
{
    let before = found.before + 1;
    let mut text = [0u8; TEXT];
    match read_word(env, before, &mut text) {
        b"--as-original" if !found.as_original => Options {
            as_original: true,
            before,
            ..found
        },
        b"--longest-period" if !found.longest_period => Options {
            longest_period: true,
            before,
            ..found
        },
        b"--raw" if !found.raw => Options {
            raw: true,
            before,
            ..found
        },
        b"--map" if found.map.is_none() => Options {
            map: Some(before + 1),
            before: before + 1,
            ..found
        },
        _ => found,
    }
}

// The options, behind `--status` if that is the first argument.
pub(crate) fn given(env: &impl Env, with_status: bool) -> Options
    ensures { result.before ≤ 9 }
{
    let mut found = Options {
        as_original: false,
        longest_period: false,
        raw: false,
        map: None,
        before: with_status as usize,
    };
    for _i in 0..OPTIONS {
        found = one_more(env, found);
    }
    found
}

// Whether an argument begins as options do.
pub(crate) fn is_option(env: &impl Env, place: usize) -> bool {
    begins(env, place, b"--")
}
