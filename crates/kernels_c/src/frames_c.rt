// Areas.
ghost use Rattle.std.specs.Prelude.{◌≡◌, ◌+◌, ◌≤◌, pos, length, drop, replicate};
ghost use Rattle.std.proofs.Math.Seq.{paste};
ghost use Rattle.frames.specs.Removal.{FrontRemoved};

use frames::Samples;

#[unsafe(no_mangle)]
pub extern "C" fn kernel_copy(
    source: &[i16],
    from: usize,
    count: usize,
    area: &mut [i16],
    to: usize,
)
    requires { (from + count ≤ length source.now) × (to + count ≤ length area.old) }
    ensures { area.new ≡ paste area.old to (drop from source.now) count }
{
    frames::copy(source, Samples(from), Samples(count), area, Samples(to));
}

#[unsafe(no_mangle)]
pub extern "C" fn kernel_silence(count: usize, area: &mut [i16], to: usize)
    requires { to + count ≤ length area.old }
    ensures { area.new ≡ paste area.old to (replicate count (pos 0)) count }
{
    frames::silence(Samples(count), area, Samples(to));
}

#[unsafe(no_mangle)]
pub extern "C" fn kernel_remove_front(area: &mut [i16], count: usize, kept: usize)
    requires { count + kept ≤ length area.old }
    ensures { FrontRemoved count kept area.old area.new }
{
    frames::remove_front(area, Samples(count), Samples(kept));
}
