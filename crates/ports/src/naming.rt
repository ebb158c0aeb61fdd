// The names of files: how long they may be.

// The most bytes of a name.
pub const MOST: usize = 4095;

// The same, and one more.
pub const PAST: usize = 4096;

// The system's number of a name that is too long.
pub const TOO_LONG: i32 = 36;
