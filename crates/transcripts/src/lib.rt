// The calls of stored runs, each with its answer printed (docs/VECTORS.md): `calls` makes them, with the areas lent as
// far as `lent` says.
#![tactic(auto)]

pub mod calls;
pub mod lent;
