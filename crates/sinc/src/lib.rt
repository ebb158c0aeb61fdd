// The filter table of the rate conversion, and interpolated samples and frames.
#![tactic(auto)]

pub mod phases;
pub mod table;
pub mod window;

ghost use Rattle.std.specs.Prelude.{◌≡◌, ◌+◌, ◌-◌, ◌*◌, ◌≤◌, ◌<◌, pos, length, drop, get_or};
ghost use Rattle.std.proofs.Math.Seq.{paste};
ghost use Rattle.sinc.specs.SincTable.{sinc_table, sinc_table_size};
ghost use Rattle.sinc.specs.Sinc.{sinc_filter_points, max_width, table_value, sinc_coefficient};
ghost use Rattle.sinc.specs.Sinc.{held_sample, interpolate_frame};
ghost use Rattle.sinc.specs.Lobes.{below_zero, EntriesOnSide};
ghost use Rattle.sinc.specs.Weights.{SmallWeights, weighted_sample, weighted_frame, CoefficientsOf};

use frames::Samples;
use reciprocals::Reciprocal;
use table::SincTable;
use window::{Ratio, Window};

// The taps of a sample, and so the tail frames that a frame is made of.
pub const SINC_FILTER_POINTS: usize = 12;

// The points of the table from one tap to the next.
const LOBE_POINTS: usize = 50;

// The table, for a caller to keep and to lend.
pub fn sinc_table() -> [i16; table::SINC_TABLE_SIZE]
    ensures { result ≡ sinc_table }
{
    table::SINC_TABLE
}

// The value of the filter at the ratio `rest` behind the table place `left`, times 2. No entry there is above zero if
// `below`, else none is below zero. So the size of their sum is divided and the sign put back, which rounds toward zero.
fn find_sinc_coefficient(table: SincTable, left: usize, rest: Ratio, below: bool) -> i32
    requires { (left + 1 < sinc_table_size) × EntriesOnSide below left }
    ensures { result ≡ table_value left rest.at rest.width.of }
{
    let width = rest.width;
    let right = left + 1;
    let left_value = table.entries[left] as i64;
    let right_value = table.entries[right] as i64;
    let e = 2 * (rest.at as i64);
    let n = 2 * (width.of as i64) - e;
    let left_part = left_value * n;
    let right_part = right_value * e;
    // In two branches: with one, for the sum or its opposite, a frame takes 36 ns, not 33.
    if below {
        let size = (-left_part - right_part) as u64;
        return -(width.divide(size) as i64) as i32;
    }
    let size = (left_part + right_part) as u64;
    width.divide(size) as i32
}

// Whether no entry of tap i's lobe is above zero.
fn is_below_zero(i: usize) -> bool
    ensures { result ≡ below_zero i }
{
    if i < 6 { i % 2 == 0 } else { i % 2 == 1 }
}

// The coefficient of tap i. Its place and what is left of the ratio there come from the reciprocal of the width, as its
// value does.
fn tap_coefficient(table: SincTable, i: usize, ratio: Ratio) -> i32
    requires { i < sinc_filter_points }
    ensures { result ≡ sinc_coefficient i ratio.at ratio.width.of }
{
    let width = ratio.width;
    let points = LOBE_POINTS * ratio.at;
    let place = width.divide(points as u64) as usize;
    let remainder = points - place * width.of;
    let left = LOBE_POINTS * i + place;
    let rest = Ratio {
        at: remainder,
        width,
    };
    find_sinc_coefficient(table, left, rest, is_below_zero(i))
}

// The coefficients of the 12 taps. Compiled into its callers, so that those of `ratio_frame` stay in registers.
#[inline(always)]
fn coefficients(table: SincTable, ratio: Ratio) -> [i32; SINC_FILTER_POINTS]
    ensures { CoefficientsOf ratio.at ratio.width.of result }
{
    // A loop: what `array::from_fn` made of them was not proved.
    let mut weights = [0i32; SINC_FILTER_POINTS];
    for i in 0..SINC_FILTER_POINTS {
        let weight = tap_coefficient(table, i, ratio);
        weights[i] = weight;
    }
    weights
}

// A sum of taps, shifted and held to the range of a sample.
fn hold(z: i64) -> i16
    ensures { result ≡ held_sample z }
{
    z.clamp(-32768, 32767) as i16
}

// One sample: the 12 taps of a channel, each times its weight. That the weights are small stays a clause: kept ones are
// lent out of the coefficients of all phases.
fn interpolate(window: Window, channel: usize, weights: &[i32]) -> i16
    requires channel { channel < window.channels }
    requires enough { sinc_filter_points ≤ length weights.now }
    requires small { SmallWeights weights.now }
    ensures { result ≡ weighted_sample
        (λ i. get_or window.entry.stage.now (window.entry.from.0 + channel + i * window.entry.channels) (pos 0))
        (λ i. get_or weights.now i (pos 0)) }
{
    let first = window.from.0 + channel;
    let mut sum: i64 = 0;
    for i in 0..SINC_FILTER_POINTS {
        let tap = window.stage[first + i * window.channels] as i64;
        let weight = weights[i] as i64;
        sum += tap * weight;
    }
    hold(sum >> 16)
}

// One frame by 12 weights: the tail frames give one sample per channel, written from `to` on. Compiled into its callers
// too. The room in the output stays a clause: the output is lent to be written.
#[inline(always)]
fn write_frame(weights: &[i32], window: Window, output: &mut [i16], to: Samples)
    requires enough { sinc_filter_points ≤ length weights.now }
    requires small { SmallWeights weights.now }
    requires channels_in_bounds { to.0 + window.channels ≤ length output.old }
    ensures { output.new ≡ paste output.old to.0
        (weighted_frame (drop window.entry.from.0 window.entry.stage.now) window.entry.channels weights.now)
        window.entry.channels }
{
    let t = to.0;
    for c in 0..window.channels {
        let sample = interpolate(window, c, weights);
        output[t + c] = sample;
    }
}

// One frame at a ratio: by the coefficients of its 12 taps, which come from the reciprocal of the width.
pub fn ratio_frame(table: SincTable, window: Window, ratio: Ratio, output: &mut [i16], to: Samples)
    requires { to.0 + window.channels ≤ length output.old }
    ensures { output.new ≡ paste output.old to.0
        (interpolate_frame (drop window.entry.from.0 window.entry.stage.now) window.entry.channels
        ratio.at ratio.width.of)
        window.entry.channels }
{
    let weights = coefficients(table, ratio);
    write_frame(&weights, window, output, to);
}

// One frame at a ratio, as `interpolate` of the original makes its samples.
pub fn interpolate_frame(
    table: SincTable,
    window: Window,
    ratio: usize,
    width: usize,
    output: &mut [i16],
    to: Samples,
)
    requires table_value { (ratio < width) × (width ≤ max_width) }
    requires channels_in_bounds { to.0 + window.channels ≤ length output.old }
    ensures { output.new ≡ paste output.old to.0
        (interpolate_frame (drop window.entry.from.0 window.entry.stage.now) window.entry.channels ratio width)
        window.entry.channels }
{
    let ratio = Ratio {
        at: ratio,
        width: Reciprocal::new(width),
    };
    ratio_frame(table, window, ratio, output, to);
}
