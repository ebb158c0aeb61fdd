// The arguments behind the options: none, `--help`, `--version`, or the names of the input and the output, and the
// numbers rate, channels, speed, pitch and volume, where rate and channels, and volume, may be left out.
ghost use Rattle.std.specs.Prelude.{◌≡◌, ◌≤◌, IfOk, Ok};
ghost use Rattle.stream.specs.Refusals.{within};
ghost use Rattle.jobs.specs.Arguments.{asked_of, AskedInRange};

use crate::options::{Options, given, is_option};
use crate::words::{TEXT, count, read_word};
use crate::{Asked, Job, Misuse};
use std::env::Env;
use stream::{SonicStream, Ties};

// The whole number that an argument is. Anything else is 0, which `checked` refuses in its turn, as a number out of its
// range: `asked_of` says of a whole job which number is told.
fn whole(env: &impl Env, place: usize) -> u32 {
    let mut text = [0u8; TEXT];
    decimal::read_whole(read_word(env, place, &mut text))
        .and_then(|n| u32::try_from(n).ok())
        .unwrap_or(0)
}

// The decimal number that an argument is, and 0 for anything else, in the same way.
fn value(env: &impl Env, place: usize) -> f32 {
    let mut text = [0u8; TEXT];
    decimal::read_value(read_word(env, place, &mut text)).unwrap_or(0.0)
}

// Whether an argument is made of digits and points: a number, if perhaps a wrong one. Any other that stands first is a
// name.
fn is_number(env: &impl Env, place: usize) -> bool {
    let mut text = [0u8; TEXT];
    let word = read_word(env, place, &mut text);
    !word.is_empty() && word.iter().all(|b| *b == b'.' || b.is_ascii_digit())
}

// Whether an argument is this word.
fn is_word(env: &impl Env, place: usize, word: &[u8]) -> bool {
    let mut text = [0u8; TEXT];
    read_word(env, place, &mut text) == word
}

// Whether the first argument asks for the status on a descriptor.
pub fn wants_status(env: &impl Env) -> bool {
    is_word(env, 1, b"--status")
}

fn is_within(x: f32, low: f32, high: f32) -> bool
    ensures { result ≡ within low high x }
{
    (low..=high).contains(&x)
}

// The job, if each argument is in its range.
fn checked(job: Job) -> Result<Job, Misuse>
    ensures { result ≡ asked_of job }
{
    if stream::rate_bad(job.rate) {
        return Err(Misuse::Rate);
    }
    if stream::channels_bad(job.channels) {
        return Err(Misuse::Channels);
    }
    if !is_within(job.speed, SonicStream::MIN_SPEED, SonicStream::MAX_SPEED) {
        return Err(Misuse::Speed);
    }
    if !is_within(job.pitch, SonicStream::MIN_PITCH, SonicStream::MAX_PITCH) {
        return Err(Misuse::Pitch);
    }
    if !is_within(job.volume, SonicStream::MIN_VOLUME, SonicStream::MAX_VOLUME) {
        return Err(Misuse::Volume);
    }
    Ok(job)
}

// The numbers that stand behind so many arguments, and how many there are; and the place of the names, if there are
// any.
#[derive(Clone, Copy, Debug, PartialEq, Eq)]
struct Numbers {
    before: usize,
    count: usize,
    names: Option<usize>,
}

// The job of these numbers: rate and channels, if there are four or five, speed and pitch, and the volume, if there are
// three or five; or none of them.
fn job(env: &impl Env, options: Options, numbers: Numbers) -> Job
    requires { numbers.before ≤ 11 }
{
    let with_rate = numbers.count > 3;
    let (rate, channels, before) = if with_rate {
        let before = numbers.before + 2;
        (whole(env, before - 1), whole(env, before), before)
    } else {
        (8000, 1, numbers.before)
    };
    let (speed, pitch) = if numbers.count > 0 {
        (value(env, before + 1), value(env, before + 2))
    } else {
        (20.0, 0.5)
    };
    let volume = if matches!(numbers.count, 3 | 5) {
        value(env, before + 3)
    } else {
        1.0
    };
    Job {
        rate,
        channels,
        speed,
        pitch,
        volume,
        step_over: !options.as_original,
        ties: Ties::from(options.longest_period as u32),
        map: options.map,
        input: numbers.names,
        output: numbers.names.map(|_| numbers.before),
        raw: options.raw,
    }
}

// The arguments behind the options, of which there are `count` with the program's name and the options.
fn numbers_of(env: &impl Env, options: Options, count: usize) -> Numbers
    requires { options.before ≤ 9 }
    ensures { result.before ≤ 11 }
{
    let first = options.before + 1;
    let with_names = first < count && !is_number(env, first);
    let before = if with_names {
        first + 1
    } else {
        options.before
    };
    Numbers {
        before,
        count: count.saturating_sub(before + 1),
        names: with_names.then_some(first),
    }
}

// The job that the names and numbers behind the options ask for.
fn asked(env: &impl Env, options: Options, count: usize) -> Result<Job, Misuse>
    requires { options.before ≤ 9 }
    ensures { IfOk result (λ job. asked_of job ≡ Ok job) }
{
    let numbers = numbers_of(env, options, count);
    let too_many = numbers.count > 3 || count < numbers.before + 1;
    if numbers.names.is_some() && (options.raw || too_many) {
        return Err(Misuse::Names);
    }
    if numbers.count == 1 || numbers.count > 5 {
        return Err(Misuse::Count);
    }
    checked(job(env, options, numbers))
}

// What the arguments ask for, behind `--status` if that is the first.
pub fn read(env: &impl Env, with_status: bool) -> Result<Asked, Misuse>
    ensures { IfOk result AskedInRange }
{
    let count = count(env);
    let options = given(env, with_status);
    let first = options.before + 1;
    if options
        .map
        .is_some_and(|map| map >= count || is_option(env, map))
    {
        return Err(Misuse::Map);
    }
    if count == first + 1 && is_word(env, first, b"--help") {
        return Ok(Asked::Help);
    }
    if count == first + 1 && is_word(env, first, b"--version") {
        return Ok(Asked::Version);
    }
    if (first..count).any(|place| is_option(env, place)) {
        return Err(Misuse::Option);
    }
    let job = asked(env, options, count)?;
    Ok(Asked::Run(job))
}
