// Sums of differences: D(q) of a period, of two neighbouring ones in one pass, and a part of it.
ghost use Rattle.std.specs.Prelude.{◌≡◌, ◌+◌, ◌*◌, ◌≤◌, nat_abs, ◌-ℤ◌, length};
ghost use Rattle.search.specs.Search.{diffs, candidate, widest_gap, Searchable};

use crate::Candidate;

// Two candidates of neighbouring periods.
#[derive(Clone, Copy, Debug, PartialEq, Eq)]
pub struct Neighbours {
    pub this: Candidate,
    pub next: Candidate,
}

// |a − b|. Of 32 bits: with i16's own `abs_diff` the compiler widens the sums of `contest` to 64 bits, and 62 differences
// take 24.4 ns instead of 19.4.
fn gap(a: i16, b: i16) -> u32
    ensures value { result ≡ nat_abs (a -ℤ b) }
    ensures bound { result ≤ widest_gap }
{
    i32::from(a).abs_diff(i32::from(b))
}

// The sum of `count` differences of a period, from difference `from` on. A difference takes samples of two places: no
// slice has a part of the sum.
pub(crate) fn gaps_from(samples: &[i16], period: usize, from: usize, count: usize) -> u32
    requires within { from + count ≤ period }
    requires searchable { Searchable (length samples.now) period period }
    ensures sum { diffs samples.now period from + result ≡ diffs samples.now period (from + count) }
    ensures bound { result ≤ widest_gap * count }
{
    let mut sum: u32 = 0;
    for i in 0..count {
        sum += gap(samples[from + i], samples[from + i + period]);
    }
    sum
}

// A period with its D(q), the sum of |x[i] − x[i + q]|, i < q.
pub(crate) fn candidate_at(samples: &[i16], period: usize) -> Candidate
    requires { Searchable (length samples.now) period period }
    ensures { result ≡ candidate samples.now period }
{
    Candidate {
        period,
        diff: gaps_from(samples, period, 0, period) as usize,
    }
}

// A period and the next, each with its D(q): one pass over the samples for both sums.
pub(crate) fn neighbours_from(samples: &[i16], period: usize) -> Neighbours
    requires { Searchable (length samples.now) period (period + 1) }
    ensures this { result.this ≡ candidate samples.now period }
    ensures next { result.next ≡ candidate samples.now (period + 1) }
{
    let after = period + 1;
    let mut this: u32 = 0;
    let mut next: u32 = 0;
    for i in 0..period {
        let a = samples[i];
        let b = samples[i + period];
        let c = samples[i + after];
        this += gap(a, b);
        next += gap(a, c);
    }
    next += gap(samples[period], samples[period + after]);
    Neighbours {
        this: Candidate {
            period,
            diff: this as usize,
        },
        next: Candidate {
            period: after,
            diff: next as usize,
        },
    }
}
