// The lines of stored runs (docs/VECTORS.md): `text` reads one, and `signal` makes the samples that a write's line
// names. `sums` has floats as their bits, and sums over samples.
#![tactic(auto)]

pub mod signal;
pub mod sums;
pub mod text;
