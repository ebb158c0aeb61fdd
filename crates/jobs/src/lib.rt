// The job that the arguments of the skim tool ask for, and its stream. `specs/Arguments.antt` and `specs/Settings.antt`
// say what is answered.
#![tactic(auto)]

mod arguments;
mod options;
mod settling;
mod words;

pub use arguments::{read, wants_status};
pub use settling::{open, settle, with_format};
use stream::Ties;
pub use words::name;

// What a run is to do: the opening and the settings of its stream; the places of the arguments that name the map's
// file, if one is wanted, the input's and the output's, if they are not standard input and output; and whether the
// input is raw PCM whatever it begins with.
#[derive(Clone, Copy, Debug)]
pub struct Job {
    pub rate: u32,
    pub channels: u32,
    pub speed: f32,
    pub pitch: f32,
    pub volume: f32,
    pub step_over: bool,
    pub ties: Ties,
    pub map: Option<usize>,
    pub input: Option<usize>,
    pub output: Option<usize>,
    pub raw: bool,
}

// What the arguments ask for.
#[derive(Clone, Copy, Debug)]
pub enum Asked {
    Help,
    Version,
    Run(Job),
}

// Why the arguments cannot be used.
#[derive(Clone, Copy, Debug, PartialEq, Eq)]
pub enum Misuse {
    // A wrong count of numbers.
    Count,
    // A number that is none, or out of its range.
    Rate,
    Channels,
    Speed,
    Pitch,
    Volume,
    // An option that is not known, or stands where none may.
    Option,
    // A map without a name.
    Map,
    // What does not go with names.
    Names,
}
