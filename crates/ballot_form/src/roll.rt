// Rolls of ballots.
ghost use Rattle.std.specs.Prelude.{◌≡◌, ◌+◌, ◌++◌, ◌↔◌, ◌<◌, ◌≤◌, ◌^◌, ◌∷◌, ℕ, [], length, slice_get, Some, IsErrOf, IfSome, OnOk, OnErr, replicate};
ghost use Rattle.ballot_form.specs.Ballots.{IsPoll, IsValidBallot};
ghost use Rattle.ballot_form.specs.Marks.{AreKept, AreMarks, ballots_of};
ghost use Rattle.ballot_form.specs.Scores.{first_of};
ghost use Rattle.ballot_form.specs.declared.roll.PushFault.TheVariants.{Memory};

use crate::marks::{Mark, ends_with, row_at};
use crate::{Cand, MOST_BALLOTS, MOST_CANDIDATES, Rows, Runs};
use mov_base::Memory;
use std::alloc::Global;
use std::marker::Model;

/// Why ballots were not taken.
#[derive(Debug, Drop)]
pub enum PushFault {
    /// The roll would have more than 1,000,000 ballots.
    TooMany,
    /// There was no memory.
    Memory,
}

impl From<Memory> for PushFault {
    ghost from_gives = { λ _ fault. fault ≡ Memory };

    fn from(_: Memory) -> PushFault {
        PushFault::Memory
    }
}

/// A number of candidates and a list of valid ballots, numbered from 1. Equal ballots that stand together are kept once, with a
/// mark of eight bytes.
#[derive(Debug, Drop)]
pub struct Roll {
    candidates: u8,
    len: u32,
    marks: Vec<Mark>,
    cells: Vec<Cand>,
}

impl Model for Roll {
    ghost use Rattle.ballot_form.specs.Ballots.{Poll};
    ghost use Rattle.ballot_form.specs.Marks.{AreKept, ballots_of};

    ghost Value = { Poll };

    ghost view = { λ r. record { c = r.candidates; ballots = ballots_of r.marks.items r.cells.items r.len } };

    ghost invariant = { λ r. AreKept r.candidates r.len r.marks.items r.cells.items };
}

impl Roll {
    /// The roll without ballots of a contest of `c` candidates. It takes no memory.
    pub fn new(alloc: Global, c: u8) -> Roll
        requires some { 1 ≤ c }
        requires most { c ≤ MOST_CANDIDATES }
        ensures { result ≡ record { c = c; ballots = [] } }
    {
        Roll {
            candidates: c,
            len: 0,
            marks: Vec::new(alloc),
            cells: Vec::new(alloc),
        }
    }

    /// How many candidates the contest has.
    pub fn candidates(&self) -> u8
        ensures value { result ≡ self.now.c }
        ensures poll { IsPoll self.now }
    {
        self.candidates
    }

    /// How many ballots the roll has.
    #[tactic(auto, using(crate::proofs::Kept::length_ballots))]
    pub fn len(&self) -> u32
        ensures value { result ≡ length self.now.ballots }
        ensures few { result ≤ MOST_BALLOTS }
        ensures poll { IsPoll self.now }
    {
        self.len
    }

    /// Lends the ballot with the number `i + 1`.
    #[tactic(auto, using(crate::proofs::Polls::valid_at))]
    pub fn row(&self, i: u32) -> &[Cand]
        requires { i < length self.now.ballots }
        ensures value { slice_get self.now.ballots i ≡ Some result.now }
        ensures valid { IsValidBallot self.now.c result.now }
        ensures poll { IsPoll self.now }
    {
        row_at(self.marks.as_slice(), self.cells.as_slice(), self.len, i)
    }

    /// The first candidate on the ballot with the number `i + 1`, and none exactly where that ballot is blank.
    pub fn first(&self, i: u32) -> Option<Cand>
        requires { i < length self.now.ballots }
        ensures value { IfSome (slice_get self.now.ballots i) (λ row. result ≡ first_of row) }
        ensures below { IfSome result (λ x. x < self.now.c) }
    {
        self.row(i).first().copied()
    }

    /// The ballots in order.
    pub fn rows(&self) -> Rows<'_>
        ensures value { result ≡ self.now.ballots }
        ensures poll { IsPoll self.now }
    {
        Rows::of(self.runs())
    }

    /// The longest runs of equal ballots, in order. It takes no memory.
    pub fn runs(&self) -> Runs<'_>
        ensures value { result ≡ record { c = self.now.c; first = 1; ballots = self.now.ballots } }
        ensures poll { IsPoll self.now }
    {
        Runs::of(
            self.candidates,
            self.marks.as_slice(),
            self.cells.as_slice(),
            self.len,
        )
    }

    /// Adds `count` equal ballots at the end.
    pub fn push_times(&mut self, row: &[Cand], count: u32) -> Result<(), PushFault>
        requires { IsValidBallot self.old.c row.now }
        ensures ok { OnOk result (self.new ≡ record self.old { ballots = self.old.ballots ++ replicate count row.now }) }
        ensures too_many { IsErrOf result PushFault.TooMany ↔ (MOST_BALLOTS < length self.old.ballots + count) }
        ensures err { OnErr result (self.new ≡ self.old) }
    {
        if count > MOST_BALLOTS - self.len {
            return Err(PushFault::TooMany);
        }
        push_run(&mut self.marks, &mut self.cells, self.len, row, count)?;
        self.len += count;
        Ok(())
    }
}

/// Adds `count` equal ballots behind `len` ballots, to the last run if that is of the same ballot.
fn push_run(
    marks: &mut Vec<Mark>,
    cells: &mut Vec<Cand>,
    len: u32,
    row: &[Cand],
    count: u32,
) -> Result<(), Memory>
    requires few { length cells.old.items + length row.now < 2 ^ 32 }
    requires marks { AreMarks marks.old.items cells.old.items len }
    ensures ok { OnOk result
        (ballots_of marks.new.items cells.new.items (len + count) ≡ ballots_of marks.old.items cells.old.items len ++ replicate count row.now) }
    ensures kept { (c : ℕ) → AreKept c len marks.old.items cells.old.items → IsValidBallot c row.now → len + count ≤ MOST_BALLOTS
        → OnOk result (AreKept c (len + count) marks.new.items cells.new.items) }
    ensures err { OnErr result ((marks.new.items ≡ marks.old.items) × (cells.new.items ≡ cells.old.items)) }
{
    if count == 0 || ends_with(marks.as_slice(), cells.as_slice(), len, row) {
        return Ok(());
    }
    add_run(marks, cells, len, row)
}

/// Adds the mark and the candidates of a run behind `len` ballots.
fn add_run(
    marks: &mut Vec<Mark>,
    cells: &mut Vec<Cand>,
    len: u32,
    row: &[Cand],
) -> Result<(), Memory>
    requires { length cells.old.items < 2 ^ 32 }
    ensures marks { OnOk result (marks.new.items ≡ marks.old.items ++ record { start = length cells.old.items; first = len } ∷ []) }
    ensures cells { OnOk result (cells.new.items ≡ cells.old.items ++ row.now) }
    ensures err { OnErr result ((marks.new.items ≡ marks.old.items) × (cells.new.items ≡ cells.old.items)) }
{
    let start = cells.len() as u32;
    marks.reserve(1)?;
    cells.extend_from_slice(row)?;
    marks.push(Mark { start, first: len }).unwrap();
    Ok(())
}
