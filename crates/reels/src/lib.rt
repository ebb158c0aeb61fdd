// A reel through the stream in fixed areas: `areas` are these, `reading` reads blocks, `reel` keeps what became of the
// frames and writes out those that wait, and `state` is how the run goes. Nothing is told here: the program tells it.
// `specs/` says what is kept.
#![tactic(auto)]

pub mod areas;
pub mod reading;
pub mod reel;
pub mod state;
