// What is wrong with the words of the command line.
ghost use Rattle.std.specs.Prelude.{◌≡◌};
ghost use Rattle.mov_words.specs.Faults.{word_fault_text};
ghost use Rattle.mov_words.specs.declared.fault.WordFault.TheVariants.{Memory};

use mov_base::Memory;
use thiserror::Error;

/// What is wrong with the words. Where several things are, the one that stands first here is told.
#[derive(Clone, Copy, Debug, PartialEq, Eq, Error)]
pub enum WordFault {
    /// There is no word.
    #[error("no command")]
    NoCommand,
    /// The first word isn't a command.
    #[error("unknown command")]
    UnknownCommand,
    /// The command doesn't take the words after it.
    #[error("wrong arguments")]
    Line,
    /// The rule is none of the five.
    #[error("unknown rule")]
    UnknownRule,
    /// The seats aren't a number from 1 to 500.
    #[error("bad seats")]
    BadSeats,
    /// The rule wants seats, and none are named.
    #[error("seats missing")]
    SeatsMissing,
    /// The rule has no seats, and some are named.
    #[error("seats unwanted")]
    SeatsUnwanted,
    /// The budget isn't a number from 1 to 40,000.
    #[error("bad budget")]
    BadBudget,
    /// The seed isn't a number from 0 to 2^64 - 1.
    #[error("bad seed")]
    BadSeed,
    /// There was no memory.
    #[error("out of memory")]
    Memory,
}

impl WordFault {
    /// What is said of the fault.
    pub fn text(self) -> &'static str
        ensures { result.now ≡ word_fault_text self }
    {
        match self {
            WordFault::NoCommand => "no command",
            WordFault::UnknownCommand => "unknown command",
            WordFault::Line => "wrong arguments",
            WordFault::UnknownRule => "unknown rule",
            WordFault::BadSeats => "bad seats",
            WordFault::SeatsMissing => "seats missing",
            WordFault::SeatsUnwanted => "seats unwanted",
            WordFault::BadBudget => "bad budget",
            WordFault::BadSeed => "bad seed",
            WordFault::Memory => "out of memory",
        }
    }
}

impl From<Memory> for WordFault {
    ghost from_gives = { λ _ fault. fault ≡ Memory };

    fn from(_: Memory) -> WordFault {
        WordFault::Memory
    }
}
