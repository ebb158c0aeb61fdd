// Entry points to inner functions, for tests and benchmarks: each has the contract of what it calls. No logic.
#![tactic(auto)]

mod engines_c;
mod floats_c;
mod frames_c;
