// The search for one candidate of a range. The least D(q)/q is looked for from a period nearby outward, and a sum that
// can no longer win is not carried on. `specs/Outward.antt` says what is wanted.
ghost use Rattle.std.specs.Prelude.{◌≡◌, ◌≤◌, length};
ghost use Rattle.search.specs.Search.{candidate, lesser, best, worst, Searchable};
ghost use Rattle.search.specs.Outward.{wanted_in};

use crate::sums::{candidate_at, gaps_from};
use crate::{Candidate, Ties, greater, lesser};

// The differences that a sum takes before it is compared again.
const BLOCK: usize = 16;

// What a search is to find: the least D(q)/q, of several by the choice of ties, looked for from a period nearby
// outward; or the greatest. An enum, which `period` hands on to either of its searches: a closure would want clauses of
// its own (`worst_in_range`).
#[derive(Clone, Copy, Debug, PartialEq, Eq)]
pub enum Wanted {
    Least(Ties, usize),
    Greatest,
}

// That the samples are enough for a range (`Searchable`) is asked of each function, not kept by a struct of samples and
// range: each asks it of another part of the range that it was handed, and would build that struct anew.

// Of a candidate and that of another period the one that goes before the other, as `lesser` has it. The sum ends where
// it fails the test of `lesser` already: a longer one fails it too.
fn contest(samples: &[i16], ties: Ties, old: Candidate, period: usize) -> Candidate
    requires { Searchable (length samples.now) period period }
    ensures { result ≡ lesser ties old (candidate samples.now period) }
{
    let limit = old.diff * period + ties as usize;
    let mut sum: usize = 0;
    // Counted by hand: after a `for` over the whole blocks the compiler takes the rest one by one, as it knows that it
    // is short. A period of 17 then takes 12.0 ns instead of 10.0, one of 62 takes 21.8 instead of 19.4.
    let mut i: usize = 0;
    while i + BLOCK <= period {
        sum += gaps_from(samples, period, i, BLOCK) as usize;
        i += BLOCK;
        if limit <= sum * old.period {
            return old;
        }
    }
    sum += gaps_from(samples, period, i, period - i) as usize;
    lesser(ties, old, Candidate { period, diff: sum })
}

// Of the periods low..=high the one with the least D(q)/q, from low upward.
fn upward(samples: &[i16], ties: Ties, low: usize, high: usize) -> Candidate
    requires { Searchable (length samples.now) low high }
    ensures { result ≡ best ties samples.now low high }
{
    let mut best = candidate_at(samples, low);
    for period in low + 1..=high {
        best = contest(samples, ties, best, period);
    }
    best
}

// Of the periods low..=high the one with the least D(q)/q, of several the smallest or the largest: first `near`, held
// to the range, and those above it, then those below it, downward. There the new period is the smaller one: a tie goes
// the other way.
pub fn best_in_range(samples: &[i16], low: usize, high: usize, near: usize, ties: Ties) -> Candidate
    requires { Searchable (length samples.now) low high }
    ensures { result ≡ best ties samples.now low high }
{
    let first = near.clamp(low, high);
    let mut best = upward(samples, ties, first, high);
    let below = ties.other();
    for period in (low..first).rev() {
        best = contest(samples, below, best, period);
    }
    best
}

// Of the periods low..=high the one with the greatest D(q)/q. Not one function with `upward`: a closure for the step
// would want a clause for when it may be called and one for what it gives, longer than the loop.
fn worst_in_range(samples: &[i16], low: usize, high: usize) -> Candidate
    requires { Searchable (length samples.now) low high }
    ensures { result ≡ worst samples.now low high }
{
    let mut worst = candidate_at(samples, low);
    for period in low + 1..=high {
        worst = greater(worst, candidate_at(samples, period));
    }
    worst
}

// The candidate of low..=high that is wanted.
pub fn candidate_in_range(samples: &[i16], low: usize, high: usize, wanted: Wanted) -> Candidate
    requires { Searchable (length samples.now) low high }
    ensures { result ≡ wanted_in wanted samples.now low high }
{
    match wanted {
        Wanted::Least(ties, near) => best_in_range(samples, low, high, near, ties),
        Wanted::Greatest => worst_in_range(samples, low, high),
    }
}
