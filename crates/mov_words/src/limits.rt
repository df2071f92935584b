// The numbers that stand where words name none, and how great they may be.

/// The budget of nodes where none is named.
pub const DEFAULT_BUDGET: u32 = 20_000;

/// The greatest seed, 2^64 - 1.
pub(crate) const GREATEST_SEED: u64 = u64::MAX;
