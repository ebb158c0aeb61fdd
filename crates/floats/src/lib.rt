// The float steps of docs/RULES.md, in the original's order of operations. `specs/` says what each gives.
#![tactic(auto)]

pub mod casts;
mod narrowing;
pub mod samples;
pub mod scales;
pub mod settings;
pub mod steps;
pub mod times;
