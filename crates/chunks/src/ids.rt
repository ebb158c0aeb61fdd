// Ids, as their four bytes.
pub const RIFF: [u8; 4] = *b"RIFF";

pub(crate) const WAVE: [u8; 4] = *b"WAVE";

pub(crate) const FMT: [u8; 4] = *b"fmt ";

pub(crate) const DATA: [u8; 4] = *b"data";
