// The ballots of a roll, one after another.
use crate::{Cand, Runs};
use std::marker::Model;

/// The ballots of a roll, in order, each lent as a slice.
#[derive(Drop)]
pub struct Rows<'a> {
    row: &'a [Cand],
    count: u32,
    runs: Runs<'a>,
}

impl<'a> Model for Rows<'a> {
    ghost use Rattle.std.specs.Prelude.{List, ℕ, ◌++◌, replicate};

    ghost Value = { List (List ℕ) };

    ghost view = { λ r. replicate r.count r.row.now ++ r.runs.ballots };
}

impl<'a> Rows<'a> {
    ghost use Rattle.std.specs.Prelude.{◌≡◌};

    pub(crate) fn of(runs: Runs<'a>) -> Rows<'a>
        ensures { result ≡ runs.entry.ballots }
    {
        Rows {
            row: &[],
            count: 0,
            runs,
        }
    }
}

impl<'a> Iterator for Rows<'a> {
    ghost use Rattle.std.specs.Iterator.{YieldsFirstRef, item_count};

    type Item = &'a [Cand];

    ghost next_gives = { YieldsFirstRef (λ s. s) };

    ghost remaining = { item_count (λ s. s) };

    fn next(&mut self) -> Option<&'a [Cand]> {
        if self.count == 0 {
            let run = self.runs.next()?;
            self.row = run.row;
            self.count = run.count;
        }
        self.count -= 1;
        Some(self.row)
    }
}
