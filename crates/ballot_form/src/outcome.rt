// The outcome of an election.
ghost use Rattle.std.specs.Prelude.{◌≡◌, ◌↔◌, IfOk, IsTrue};

use crate::{Cand, SeatList};
use mov_base::{Copies, Memory};
use std::alloc::Global;

/// What a rule gives.
#[derive(Debug, Drop)]
pub enum Outcome {
    /// This candidate wins.
    Winner(Cand),
    /// No candidate wins.
    NoWinner,
    /// Each candidate, in order, gets so many seats.
    Seats(SeatList),
}

impl Outcome {
    /// An equal outcome.
    pub fn copy(&self) -> Result<Outcome, Memory>
        ensures { IfOk result (λ copy. copy ≡ self.now) }
    {
        match self {
            Outcome::Winner(x) => Ok(Outcome::Winner(*x)),
            Outcome::NoWinner => Ok(Outcome::NoWinner),
            Outcome::Seats(seats) => Ok(Outcome::Seats(seats.copy()?)),
        }
    }
}

impl Outcome {
    /// Whether the outcomes are equal.
    pub fn equals(&self, other: &Outcome) -> bool
        ensures { IsTrue result ↔ (self.now ≡ other.now) }
    {
        match (self, other) {
            (Outcome::Winner(x), Outcome::Winner(y)) => *x == *y,
            (Outcome::NoWinner, Outcome::NoWinner) => true,
            (Outcome::Seats(seats), Outcome::Seats(others)) => seats.as_slice()
                == others.as_slice(),
            _ => false,
        }
    }
}

impl Copies for Outcome {
    fn copied(&self, _alloc: Global) -> Result<Outcome, Memory> {
        self.copy()
    }
}
