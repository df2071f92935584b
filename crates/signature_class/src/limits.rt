// The limit of signatures and keys.

/// The most places that a suffix has, and the most candidates that a key tells apart: it has one bit for each.
pub const MOST_PLACES: u8 = 40;
