// The search over a range of periods: D(q) of a period, and the period with the least D(q)/q. `specs/Search.antt` says
// what each function gives; `sums` has D(q), `outward` the search for one candidate from a period nearby outward.
#![tactic(auto)]

mod outward;
mod sums;

ghost use Rattle.std.specs.Prelude.{◌≡◌, ◌/◌, ◌≤◌, length};
ghost use Rattle.search.specs.Ties.{ties_of, ties_number, other};
ghost use Rattle.search.specs.Search.{lesser, greater, found_of, find_pitch_period_in_range};
ghost use Rattle.search.specs.Search.{widest_gap, Searchable};

pub use outward::{Wanted, best_in_range, candidate_in_range};
use std::marker::Model;
pub use sums::Neighbours;
use sums::{candidate_at, neighbours_from};

// Of several periods with the same least mean difference, the one that a search finds.
#[derive(Clone, Copy, Debug, PartialEq, Eq)]
pub enum Ties {
    Smallest = 0,
    Largest = 1,
}

impl Ties {
    // The other choice: where periods are taken downward, the new one of two is the smaller.
    fn other(self) -> Ties
        ensures { result ≡ other self }
    {
        match self {
            Ties::Smallest => Ties::Largest,
            Ties::Largest => Ties::Smallest,
        }
    }
}

// The choice that a number says, as streams and callers of C have it.
impl From<u32> for Ties {
    ghost from_gives = { λ number ties. ties ≡ ties_of number };

    fn from(number: u32) -> Ties {
        if number > 0 {
            Ties::Largest
        } else {
            Ties::Smallest
        }
    }
}

// The number of a choice.
impl From<Ties> for u32 {
    ghost from_gives = { λ ties number. number ≡ ties_number ties };

    fn from(ties: Ties) -> u32 {
        ties as u32
    }
}

// A search's answer: the period with the least mean difference, the whole parts of the least and the greatest mean, and
// the sum of differences of the period.
#[derive(Clone, Copy, Debug, PartialEq, Eq)]
pub struct Found {
    pub period: usize,
    pub min_diff: usize,
    pub max_diff: usize,
    pub sum: usize,
}

// A period q and its D(q), which a search compares with others: each of its q differences is at most the widest.
#[derive(Clone, Copy, Debug, PartialEq, Eq)]
pub struct Candidate {
    pub period: usize,
    pub diff: usize,
}

impl Model for Candidate {
    ghost use Rattle.search.specs.Search.{PeriodSum, Bounded};

    ghost Value = { PeriodSum };

    ghost view = { λ c. record { period = c.period; diff = c.diff } };

    ghost invariant = { λ c. Bounded (record { period = c.period; diff = c.diff }) };

    ghost inverse = { λ c. record { period = c.period; diff = c.diff } };
}

impl Candidate {
    // The mean of its differences, its whole part.
    pub fn mean(self) -> usize
        ensures value { result ≡ self.diff / self.period }
        ensures bound { result ≤ widest_gap }
    {
        self.diff / self.period
    }
}

// Of two candidates the one with the smaller D(q)/q; at a tie the old one, whose period is smaller, or the new one if
// the largest is to be found. The products are whole numbers, so that one more takes in a tie.
fn lesser(ties: Ties, old: Candidate, new: Candidate) -> Candidate
    ensures { result ≡ lesser ties old new }
{
    if new.diff * old.period < old.diff * new.period + ties as usize {
        new
    } else {
        old
    }
}

// Of two candidates the one with the greater D(q)/q, the old one at a tie.
fn greater(old: Candidate, new: Candidate) -> Candidate
    ensures { result ≡ greater old new }
{
    if old.diff * new.period < new.diff * old.period {
        new
    } else {
        old
    }
}

// The answer for the candidates with the least and with the greatest D(q)/q: the period and the sum of the one, the
// whole parts of both.
fn found_of(best: Candidate, worst: Candidate) -> Found
    ensures value { result ≡ found_of best worst }
    ensures bound { result.min_diff ≤ widest_gap }
{
    Found {
        period: best.period,
        min_diff: best.mean(),
        max_diff: worst.mean(),
        sum: best.diff,
    }
}

// Of the periods min_period..=max_period the one with the least D(q)/q, of several the smallest or the largest, with
// the whole parts of the least and the greatest D(q)/q, and its D(q). Two periods are taken at a time.
pub fn find_pitch_period_in_range(
    samples: &[i16],
    min_period: usize,
    max_period: usize,
    ties: Ties,
) -> Found
    requires { Searchable (length samples.now) min_period max_period }
    ensures value { result ≡ find_pitch_period_in_range ties samples.now min_period max_period }
    ensures bound { result.min_diff ≤ widest_gap }
{
    let first = candidate_at(samples, min_period);
    let mut best = first;
    let mut worst = first;
    let more = max_period - min_period;
    for pair in 0..more / 2 {
        let Neighbours { this, next } = neighbours_from(samples, min_period + 2 * pair + 1);
        best = lesser(ties, lesser(ties, best, this), next);
        worst = greater(greater(worst, this), next);
    }
    if more % 2 == 1 {
        let last = candidate_at(samples, max_period);
        best = lesser(ties, best, last);
        worst = greater(worst, last);
    }
    found_of(best, worst)
}
