// The limits of a search.

/// The budget where none is named.
pub const DEFAULT_BUDGET: u32 = 20_000;
