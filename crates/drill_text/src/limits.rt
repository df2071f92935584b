// What a drill tries the program on.

/// How many candidates the contest has.
pub const DRILL_CANDIDATES: u8 = 5;

/// How many ballots it has.
pub const DRILL_BALLOTS: u32 = 10_000;

/// How many seats there are under D'Hondt's rule.
pub const DRILL_SEATS: u16 = 7;

/// How many nodes the tree of each search may have.
pub const DRILL_BUDGET: u32 = 2_000;
