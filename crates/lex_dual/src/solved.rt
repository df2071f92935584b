// What the method answers.
ghost use Rattle.std.specs.Prelude.{◌≡◌};
ghost use Rattle.lex_dual.specs.declared.solved.SolveFault.TheVariants as variants;

use bound_tree::Multipliers;
use exact_num::Ratio;
use mov_base::Memory;
use pivot_form::Wide;
use row_program::Point;

/// What the method finds.
#[derive(Debug, Drop)]
pub enum Solved {
    /// The least cost, the lexicographically least point of that cost, and multipliers that show that no point costs
    /// less.
    Best {
        /// The least cost.
        value: Ratio,
        /// One for each kept row.
        multipliers: Multipliers,
        /// The point, in its least common denominator.
        point: Point,
    },
    /// No point meets the rows, and multipliers that show it.
    Never {
        /// One for each kept row.
        multipliers: Multipliers,
    },
}

/// Why a program isn't solved.
#[derive(Debug, Drop)]
pub enum SolveFault {
    /// A number on the way, or one of the point, has 63 bits or more.
    Wide {
        /// The first such number's size.
        size: u128,
    },
    /// There was no memory.
    Memory,
}

impl From<Memory> for SolveFault {
    ghost from_gives = { λ _ fault. fault ≡ variants.Memory };

    fn from(_error: Memory) -> SolveFault {
        SolveFault::Memory
    }
}

impl From<Wide> for SolveFault {
    ghost from_gives = { λ wide fault. fault ≡ variants.Wide wide.size };

    fn from(wide: Wide) -> SolveFault {
        SolveFault::Wide { size: wide.size }
    }
}
