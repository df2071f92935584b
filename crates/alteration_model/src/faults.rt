// What is wrong with claimed replacements.
ghost use Rattle.std.specs.Prelude.{◌≡◌};
ghost use Rattle.alteration_model.specs.declared.faults.AlterFault.TheVariants.{Memory};

use mov_base::Memory;

/// Why puts are no alteration, with the place of the first bad put, from 0.
#[derive(Debug, Drop)]
pub enum AlterFault {
    /// No ballot has this number.
    NumberRange(usize),
    /// The number isn't above that of the put before.
    NotAscending(usize),
    /// The ballot isn't valid: a candidate that doesn't stand, or one that is named twice.
    BadBallot(usize),
    /// There was no memory.
    Memory,
}

impl From<Memory> for AlterFault {
    ghost from_gives = { λ _ fault. fault ≡ Memory };

    fn from(_: Memory) -> AlterFault {
        AlterFault::Memory
    }
}
