// The size at which a number is wide.

/// The least size of a wide number, 2^63: entries of forms, numbers of points and multipliers stay below it.
pub const WIDE: u64 = 9_223_372_036_854_775_808;
