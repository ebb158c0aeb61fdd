// The period that a step uses: which samples are searched, and the choice between the period found and the previous
// one. `specs/Pitch.antt` and `specs/Searches.antt` say what each function gives.
ghost use Rattle.std.specs.Prelude.{◌≡◌, ◌+◌, ◌*◌, ◌≤◌, ◌<◌, length};
ghost use Rattle.period.specs.Rates.{min_period, max_period, max_required, skip, InLimits};
ghost use Rattle.search.specs.Search.{widest_gap, Searchable};
ghost use Rattle.search.specs.Outward.{wanted_in};
ghost use Rattle.averages.specs.Averages.{Averageable};
ghost use Rattle.period.specs.Pitch.{values_of, find_pitch_period, InRange, PrevInOrder};
ghost use Rattle.period.specs.Searches.{first_search, second_search, last_search, nearby_of, best_of};
ghost use Rattle.period.specs.Searches.{prev_might_be_better};

use crate::{Chosen, PeriodRecord, rates};
use frames::{Frames, Samples};
use search::{Candidate, Ties, Wanted};

// The candidate with the least mean, and the period near which the second search looks.
#[derive(Clone, Copy, Debug, PartialEq, Eq)]
struct LeastMean {
    near: usize,
    best: Candidate,
}

// The samples that a step begins with, of so many channels at a rate: as many as a search looks at. The scratch stays
// beside it: a `&mut` field would want a clause on its ghost name in every contract.
#[derive(Clone, Copy, Debug, PartialEq, Eq)]
struct Searched<'a> {
    samples: &'a [i16],
    channels: usize,
    rate: usize,
    ghost in_limits: { InLimits rate channels },
    ghost enough: { max_required rate * channels ≤ length samples.now },
}

// The search over values that `per_value` samples make: the samples themselves, or `num_values` averages of them in the
// scratch.
fn search_values(
    samples: &[i16],
    num_values: usize,
    per_value: Samples,
    low: usize,
    high: usize,
    wanted: Wanted,
    scratch: &mut [i16],
) -> Candidate
    requires averageable { Averageable (length samples.now) (length scratch.old) num_values per_value.0 }
    requires searchable { Searchable num_values low high }
    ensures { result ≡ wanted_in wanted (values_of samples.now num_values per_value.0) low high }
{
    let n = per_value.0;
    if n == 1 {
        return search::candidate_in_range(samples, low, high, wanted);
    }
    averages::down_sample_input(samples, scratch, num_values, per_value);
    search::candidate_in_range(&scratch[..num_values], low, high, wanted)
}

impl Searched<'_> {
    // The frames that one average takes.
    fn skip(&self) -> usize
        ensures value { result ≡ skip self.now.rate }
        ensures some { 1 ≤ result }
        ensures few { result ≤ 125 }
    {
        rates::skip(self.rate)
    }

    // The first search, over averages of `skip` frames each. The scratch has room for as many frames as are looked at.
    fn coarse_search(&self, wanted: Wanted, scratch: &mut [i16]) -> Candidate
        requires { max_required self.now.rate ≤ length scratch.old }
        ensures { result ≡ first_search wanted self.now.samples.now self.now.channels self.now.rate }
    {
        let skip = self.skip();
        search_values(
            self.samples,
            rates::max_required(self.rate).0 / skip,
            Frames(skip).samples(self.channels),
            rates::min_period(self.rate) / skip,
            rates::max_period(self.rate) / skip,
            wanted,
            scratch,
        )
    }

    // The second search, at full rate within 4·skip of a period, inside the range.
    fn fine_search(&self, near: usize, wanted: Wanted, scratch: &mut [i16]) -> Candidate
        requires near_high { near ≤ max_period self.now.rate }
        requires near_low { min_period self.now.rate < near + skip self.now.rate }
        requires fits { max_required self.now.rate ≤ length scratch.old }
        ensures { result ≡ second_search wanted self.now.samples.now self.now.channels self.now.rate near }
    {
        let reach = 4 * self.skip();
        search_values(
            self.samples,
            rates::max_required(self.rate).0,
            Frames(1).samples(self.channels),
            near.saturating_sub(reach).max(rates::min_period(self.rate)),
            (near + reach).min(rates::max_period(self.rate)),
            wanted,
            scratch,
        )
    }

    // The candidate with the least mean: that of the first search, which looks from the previous period on, or with a
    // skip above 1 that of the second, which looks from the period of the first on.
    fn least_at(&self, previous: usize, ties: Ties, scratch: &mut [i16]) -> LeastMean
        requires { max_required self.now.rate ≤ length scratch.old }
        ensures near { result.near ≡ nearby_of ties self.now.samples.now self.now.channels self.now.rate }
        ensures best { result.best ≡ best_of ties self.now.samples.now self.now.channels self.now.rate }
    {
        let skip = self.skip();
        let first = self.coarse_search(Wanted::Least(ties, previous / skip), scratch);
        let near = first.period * skip;
        if skip == 1 {
            return LeastMean { near, best: first };
        }
        let best = self.fine_search(near, Wanted::Least(ties, near), scratch);
        LeastMean { near, best }
    }

    // The candidate with the greatest mean of the last search, with a skip above 1 the second near a period.
    fn greatest_at(&self, near: usize, scratch: &mut [i16]) -> Candidate
        requires near_high { near ≤ max_period self.now.rate }
        requires near_low { min_period self.now.rate < near + skip self.now.rate }
        requires fits { max_required self.now.rate ≤ length scratch.old }
        ensures { result ≡ last_search Wanted.Greatest self.now.samples.now self.now.channels self.now.rate near }
    {
        if self.skip() == 1 {
            return self.coarse_search(Wanted::Greatest, scratch);
        }
        self.fine_search(near, Wanted::Greatest, scratch)
    }
}

// Whether the previous period is used instead of the one found, if the greatest mean allows it.
fn prev_might_be_better(prev: PeriodRecord, min_diff: usize) -> bool
    requires prev_min_diff { prev.min_diff ≤ widest_gap }
    requires min_diff { min_diff ≤ widest_gap }
    ensures { result ≡ prev_might_be_better prev min_diff }
{
    min_diff != 0 && prev.period != 0 && prev.min_diff * 3 < min_diff * 2
}

// The period that a step at the start of the samples uses, in frames, with the record after the search, and the sum of
// differences of the period found. The greatest mean is looked for only where the choice hangs on it.
pub fn find_pitch_period(
    samples: &[i16],
    channels: usize,
    rate: usize,
    prev: PeriodRecord,
    ties: Ties,
    scratch: &mut [i16],
) -> Chosen
    requires in_limits { InLimits rate channels }
    requires prev_in_order { PrevInOrder rate prev }
    requires samples_enough { max_required rate * channels ≤ length samples.now }
    requires scratch_fits { max_required rate ≤ length scratch.old }
    ensures value { result ≡ find_pitch_period ties samples.now channels rate prev }
    ensures in_range { InRange rate result.period.0 }
    ensures prev_in_order { PrevInOrder rate result.prev }
{
    let searched = Searched {
        samples,
        channels,
        rate,
    };
    let LeastMean { near, best } = searched.least_at(prev.period, ties, scratch);
    let min_diff = best.mean();
    let mut used = best.period;
    if prev_might_be_better(prev, min_diff) {
        let worst = searched.greatest_at(near, scratch);
        if worst.mean() <= min_diff * 3 {
            used = prev.period;
        }
    }
    Chosen {
        period: Frames(used),
        prev: PeriodRecord {
            period: best.period,
            min_diff,
        },
        sum: best.diff,
    }
}
