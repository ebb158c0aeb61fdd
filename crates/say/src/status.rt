// How a run of the skim tool ends.
ghost use Rattle.std.specs.Prelude.{◌≡◌};
ghost use Rattle.say.specs.Status.{number_of};

// Fine; a reel that did not go through whole; or bad usage, and files that cannot be opened. Each with its number.
#[derive(Clone, Copy, Debug, PartialEq, Eq)]
pub enum Status {
    Fine = 0,
    Incomplete = 1,
    BadUsage = 2,
}

impl From<Status> for u8 {
    ghost from_gives = { λ status number. number ≡ number_of status };

    fn from(status: Status) -> u8 {
        status as u8
    }
}
