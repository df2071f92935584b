// Goals.
ghost use Rattle.std.specs.Prelude.{◌≡◌, IfOk};

use ballot_form::{Cand, Ranking};
use mov_base::{Copies, List, Memory};
use std::alloc::Global;

/// A list of goals.
pub type GoalList = List<Goal>;

/// What replacements are to reach so that the outcome turns.
#[derive(Debug, Drop)]
pub enum Goal {
    /// Any outcome other than the reported one is admitted.
    Root,
    /// These candidates, from the one who goes out first to the one who wins, are the last to stand, and go out in this
    /// order.
    Suffix(Ranking),
    /// The first candidate's count is brought up to the second one's.
    Pair(Cand, Cand),
    /// No other candidate is preferred to this one by more ballots than prefer this one.
    Cover(Cand),
}

impl Goal {
    /// An equal goal.
    pub fn copy(&self) -> Result<Goal, Memory>
        ensures { IfOk result (λ copy. copy ≡ self.now) }
    {
        match self {
            Goal::Root => Ok(Goal::Root),
            Goal::Suffix(suffix) => Ok(Goal::Suffix(suffix.copy()?)),
            Goal::Pair(gainer, loser) => Ok(Goal::Pair(*gainer, *loser)),
            Goal::Cover(x) => Ok(Goal::Cover(*x)),
        }
    }
}

impl Copies for Goal {
    fn copied(&self, _alloc: Global) -> Result<Goal, Memory> {
        self.copy()
    }
}
