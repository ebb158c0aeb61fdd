// Search, averages, interpolation, crossfade, volume.
ghost use Rattle.std.specs.Prelude.{◌≡◌, map, ◌++◌, ◌+◌, ◌*◌, ◌≤◌, ◌<◌, T, length, drop};
ghost use Rattle.std.specs.Float.Ieee.{le};
ghost use Rattle.std.proofs.Math.Seq.{paste};
ghost use Rattle.floats.specs.Settings.{min_volume, max_volume};
ghost use Rattle.floats.specs.Write.{sample_in, sample_out};
ghost use Rattle.averages.specs.Averages.{down_sample_input, Averageable};
ghost use Rattle.search.specs.Ties.{ties_of};
ghost use Rattle.search.specs.Search.{best, find_pitch_period_in_range, longest_period, Searchable};
ghost use Rattle.sinc.specs.Sinc.{interpolate_frame};
ghost use Rattle.sinc.specs.SincTable.{sinc_table};
ghost use Rattle.crossfade.specs.Crossfade.{overlap_add};
ghost use Rattle.volume.specs.Volume.{scaled};

use frames::{Frames, Samples};
use sinc::table::SincTable;
use sinc::window::Window;

// A search's answer. `Found` of search, as C has it.
#[repr(C)]
#[derive(Clone, Copy)]
pub struct Search {
    pub period: usize,
    pub min_diff: usize,
    pub max_diff: usize,
    pub sum: usize,
}

// A period with its sum of differences. `Candidate` of search, as C has it: no invariant is kept there.
#[repr(C)]
#[derive(Clone, Copy)]
pub struct Best {
    pub period: usize,
    pub sum: usize,
}

#[unsafe(no_mangle)]
pub extern "C" fn kernel_samples_in(source: &[f32], area: &mut [i16])
    requires { length source.now ≤ length area.old }
    ensures { area.new ≡ paste area.old 0 (map sample_in source.now)
        (length source.now) }
{
    floats::samples::store(source, area);
}

#[unsafe(no_mangle)]
pub extern "C" fn kernel_samples_out(area: &[i16], slice: &mut [f32])
    requires { length area.now ≤ length slice.old }
    ensures { slice.new ≡ paste slice.old 0 (map sample_out area.now)
        (length area.now) }
{
    floats::samples::samples_out(area, slice);
}

#[unsafe(no_mangle)]
pub extern "C" fn kernel_find_pitch_period_in_range(
    samples: &[i16],
    low: usize,
    high: usize,
    ties: u32,
) -> Search
    requires { Searchable (length samples.now) low high }
    ensures { (result.period ≡ (find_pitch_period_in_range (ties_of ties) samples.now low high).period)
        × (result.min_diff ≡ (find_pitch_period_in_range (ties_of ties) samples.now low high).min_diff)
        × (result.max_diff ≡ (find_pitch_period_in_range (ties_of ties) samples.now low high).max_diff)
        × (result.sum ≡ (find_pitch_period_in_range (ties_of ties) samples.now low high).sum) }
{
    let found = search::find_pitch_period_in_range(samples, low, high, search::Ties::from(ties));
    Search {
        period: found.period,
        min_diff: found.min_diff,
        max_diff: found.max_diff,
        sum: found.sum,
    }
}

#[unsafe(no_mangle)]
pub extern "C" fn kernel_best_in_range(
    samples: &[i16],
    low: usize,
    high: usize,
    near: usize,
    ties: u32,
) -> Best
    requires { Searchable (length samples.now) low high }
    ensures { (result.period ≡ (best (ties_of ties) samples.now low high).period)
        × (result.sum ≡ (best (ties_of ties) samples.now low high).diff) }
{
    let found = search::best_in_range(samples, low, high, near, search::Ties::from(ties));
    Best {
        period: found.period,
        sum: found.diff,
    }
}

#[unsafe(no_mangle)]
pub extern "C" fn kernel_down_sample_input(
    samples: &[i16],
    out: &mut [i16],
    count: usize,
    per: usize,
)
    requires { Averageable (length samples.now) (length out.old) count per }
    ensures { out.new ≡ down_sample_input samples.now count per
        ++ drop count out.old }
{
    averages::down_sample_input(samples, out, count, Samples(per));
}

#[unsafe(no_mangle)]
pub extern "C" fn kernel_interpolate_frame(
    table: &[i16],
    stage: &[i16],
    channels: usize,
    ratio: usize,
    width: usize,
    output: &mut [i16],
)
    requires table_value { (table.now ≡ sinc_table) × (ratio < width) × (width ≤ 16384) }
    requires channels_in_bounds { (12 * channels ≤ length stage.now) × (channels ≤ length output.old) }
    ensures { output.new ≡ paste output.old 0
        (interpolate_frame stage.now channels ratio width) channels }
{
    sinc::interpolate_frame(
        SincTable { entries: table },
        Window {
            stage,
            from: Samples(0),
            channels,
        },
        ratio,
        width,
        output,
        Samples(0),
    );
}

#[unsafe(no_mangle)]
pub extern "C" fn kernel_overlap_add(
    k: usize,
    channels: usize,
    input: &[i16],
    down: usize,
    up: usize,
    stage: &mut [i16],
)
    requires k_le_longest_period { k ≤ longest_period }
    requires channels_in_bounds { (down + k * channels ≤ length input.now) × (up + k * channels ≤ length input.now)
        × (k * channels ≤ length stage.old) }
    ensures { stage.new ≡ paste stage.old 0
        (overlap_add k channels (drop down input.now) (drop up input.now)) (k * channels) }
{
    crossfade::overlap_add(
        Frames(k),
        channels,
        input,
        Samples(down),
        Samples(up),
        stage,
        Samples(0),
    );
}

#[unsafe(no_mangle)]
pub extern "C" fn kernel_scale_samples(area: &mut [i16], volume: f32)
    requires { T (le min_volume volume) × T (le volume max_volume) }
    ensures { area.new ≡ paste area.old 0 (map (scaled volume) area.old)
        (length area.old) }
{
    let n = area.len();
    volume::scale_samples(area, Samples(0), Samples(n), volume);
}
