// How much of the areas and of the slice the calls are lent.
ghost use Rattle.std.specs.Prelude.{◌≡◌, ◌≤◌, length, take};

// The lengths of the areas, in samples.
#[derive(Clone, Copy)]
pub struct LentLengths {
    pub input: usize,
    pub stage: usize,
    pub output: usize,
    pub scratch: usize,
}

// A length, or that of the whole slice where it has less.
pub fn of_slice<T>(n: usize, slice: &[T]) -> usize
    ensures bound { result ≤ length slice.now }
    ensures length { result ≡ length (take result slice.now) }
{
    n.min(slice.len())
}
