// The limits of a contest.

/// The most candidates that a contest has.
pub const MOST_CANDIDATES: u8 = 12;

/// The most ballots that a roll has.
pub const MOST_BALLOTS: u32 = 1_000_000;

/// The most seats that D'Hondt's rule shares out.
pub const MOST_SEATS: u16 = 500;

/// The longest name of a candidate, in bytes.
pub const LONGEST_NAME: usize = 64;
