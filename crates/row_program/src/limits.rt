// How large a program may be, and the limits of a tree of bounds that the crates below it cite too.

/// The most variables of a program.
pub const MOST_VARIABLES: usize = 1_048_576;

/// The most rows of a program.
pub const MOST_ROWS: usize = 1_048_576;

/// The least size that is too large for a row's constant or for what a term multiplies by, 2^31.
pub const TERM_LIMIT: u64 = 2_147_483_648;

/// The most kids of a split, which are the goals of a cover: the ordered pairs of 40 candidates.
pub const MOST_KIDS: usize = 1_560;

/// The most limits on the replacements of a node.
pub const MOST_LIMITS: usize = 255;
