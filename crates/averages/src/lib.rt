// Averages of neighbouring samples. `specs/Averages.antt` says what each function gives.
#![tactic(auto)]

ghost use Rattle.std.specs.Prelude.{◌≡◌, [], ◌∷◌, ◌++◌, ◌+◌, ◌≤◌, length, drop};
ghost use Rattle.averages.specs.Averages.{mean_from, down_sample_input, most_averaged, Averageable};

use frames::Samples;

// The means of two neighbouring groups of samples.
#[derive(Clone, Copy, Debug, PartialEq, Eq)]
pub struct Means {
    pub first: i16,
    pub second: i16,
}

// The mean of `count` samples from the place `from` on, toward zero.
fn mean_from(samples: &[i16], from: Samples, count: Samples) -> i16
    requires some { 1 ≤ count.0 }
    requires few { count.0 ≤ most_averaged }
    requires within { from.0 + count.0 ≤ length samples.now }
    ensures { result ≡ mean_from samples.now from.0 count.0 }
{
    let first = from.0;
    let mut sum: i32 = 0;
    for i in 0..count.0 {
        sum += samples[first + i] as i32;
    }
    let divisor = count.0 as i32;
    (sum / divisor) as i16
}

// The mean of `count` samples from the place `from` on, and that of the `count` samples behind them: one pass for both
// sums.
fn means_from(samples: &[i16], from: Samples, count: Samples) -> Means
    requires some { 1 ≤ count.0 }
    requires few { count.0 ≤ most_averaged }
    requires within { from.0 + count.0 + count.0 ≤ length samples.now }
    ensures first { result.first ≡ mean_from samples.now from.0 count.0 }
    ensures second { result.second ≡ mean_from samples.now (from.0 + count.0) count.0 }
{
    let first = from.0;
    let second = first + count.0;
    let mut sum: i32 = 0;
    let mut behind: i32 = 0;
    for i in 0..count.0 {
        sum += samples[first + i] as i32;
        behind += samples[second + i] as i32;
    }
    let divisor = count.0 as i32;
    Means {
        first: (sum / divisor) as i16,
        second: (behind / divisor) as i16,
    }
}

// The mean of two samples, toward zero.
fn mean_of_two(a: i16, b: i16) -> i16
    ensures { result ≡ mean_from (a ∷ b ∷ []) 0 2 }
{
    let sum = a as i32 + b as i32;
    (sum / 2) as i16
}

// The first `num_values` means of 2 samples each, at the front of `out`. A loop apart, for speed (docs/DECISIONS.md).
fn down_sample_by_two(samples: &[i16], out: &mut [i16], num_values: usize)
    requires { Averageable (length samples.now) (length out.old) num_values 2 }
    ensures { out.new ≡ down_sample_input samples.now num_values 2
        ++ drop num_values out.old }
{
    for i in 0..num_values {
        out[i] = mean_of_two(samples[i * 2], samples[i * 2 + 1]);
    }
}

// The first `num_values` means of `per_value` samples each, at the front of `out`. Two values are made at a time. The
// count stands beside: the scratch is lent longer, and the rest of it stays. `Averageable`, of two slices and two
// counts, stays a clause.
pub fn down_sample_input(samples: &[i16], out: &mut [i16], num_values: usize, per_value: Samples)
    requires { Averageable (length samples.now) (length out.old) num_values per_value.0 }
    ensures { out.new ≡ down_sample_input samples.now num_values per_value.0
        ++ drop num_values out.old }
{
    let n = per_value.0;
    if n == 2 {
        down_sample_by_two(samples, out, num_values);
        return;
    }
    for pair in 0..num_values / 2 {
        let i = 2 * pair;
        let Means { first, second } = means_from(samples, Samples(i * n), per_value);
        out[i] = first;
        out[i + 1] = second;
    }
    if num_values % 2 == 1 {
        let last = num_values - 1;
        out[last] = mean_from(samples, Samples(last * n), per_value);
    }
}
