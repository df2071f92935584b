// The longest runs of equal ballots of a roll.
use crate::Cand;
use crate::marks::{Mark, first_of_runs, start_at};
use std::marker::Model;

/// A run of equal ballots.
#[derive(Debug, Drop)]
pub struct Run<'a> {
    /// Each of its ballots.
    pub row: &'a [Cand],
    /// The number of its first ballot, from 1.
    pub first: u32,
    /// How many ballots it has.
    pub count: u32,
}

/// The longest runs of equal ballots of a roll, in order.
#[derive(Drop)]
pub struct Runs<'a> {
    candidates: u8,
    marks: &'a [Mark],
    cells: &'a [Cand],
    len: u32,
}

impl<'a> Model for Runs<'a> {
    ghost use Rattle.std.specs.Prelude.{◌≤◌, ◌+◌};
    ghost use Rattle.ballot_form.specs.declared.limits.TheConstants.{MOST_BALLOTS};
    ghost use Rattle.ballot_form.specs.Ballots.{IsPoll};
    ghost use Rattle.ballot_form.specs.Marks.{AreMarks, ballots_of, next_first};
    ghost use Rattle.ballot_form.specs.Runs.{Left};

    ghost Value = { Left };

    ghost view = { λ r. record {
      c = r.candidates;
      first = next_first r.marks.now r.len + 1;
      ballots = ballots_of r.marks.now r.cells.now r.len;
    } };

    ghost invariant = { λ r. IsPoll (record { c = r.candidates; ballots = ballots_of r.marks.now r.cells.now r.len })
        × (AreMarks r.marks.now r.cells.now r.len × (r.len ≤ MOST_BALLOTS)) };
}

impl<'a> Runs<'a> {
    ghost use Rattle.std.specs.Prelude.{◌≡◌, ◌≤◌, ◌+◌};
    ghost use Rattle.ballot_form.specs.declared.limits.TheConstants.{MOST_BALLOTS};
    ghost use Rattle.ballot_form.specs.Ballots.{IsPoll};
    ghost use Rattle.ballot_form.specs.Marks.{AreMarks, ballots_of, next_first};

    pub(crate) fn of(candidates: u8, marks: &'a [Mark], cells: &'a [Cand], len: u32) -> Runs<'a>
        requires poll { IsPoll (record { c = candidates; ballots = ballots_of marks.now cells.now len }) }
        requires marks { AreMarks marks.now cells.now len }
        requires few { len ≤ MOST_BALLOTS }
        ensures { result ≡ record {
          c = candidates;
          first = next_first marks.now len + 1;
          ballots = ballots_of marks.now cells.now len;
        } }
    {
        Runs {
            candidates,
            marks,
            cells,
            len,
        }
    }
}

impl<'a> Iterator for Runs<'a> {
    ghost use Rattle.std.specs.Prelude.{length};
    ghost use Rattle.std.specs.Iterator.{at_most};
    ghost use Rattle.ballot_form.specs.Runs.{GivesRun};

    type Item = Run<'a>;

    ghost next_gives = { GivesRun };

    ghost remaining = { λ left. at_most (length left.ballots) };

    #[tactic(auto, using(crate::proofs::Kept::start_le))]
    fn next(&mut self) -> Option<Run<'a>> {
        let (mark, later) = self.marks.split_first()?;
        let end = start_at(later, self.cells.len(), 0);
        let after = first_of_runs(later, self.len);
        self.marks = later;
        Some(Run {
            row: &self.cells[mark.start as usize..end],
            first: mark.first + 1,
            count: after - mark.first,
        })
    }
}
