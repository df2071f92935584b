// The runs of a roll, marked in the list of their candidates.
ghost use Rattle.std.specs.Prelude.{◌≡◌, ◌<◌, ◌≤◌, ◌↔◌, ℕ, List, drop, length, slice_get, slice_index_or, Some, IsTrue};
ghost use Rattle.ballot_form.specs.Marks.{AreMarks, ballots_of, last_row, next_first, next_start};
ghost use Rattle.ballot_form.specs.declared.marks.Mark.{Mark};

use crate::Cand;

/// Where a run of equal ballots begins.
#[derive(Debug, Drop)]
pub(crate) struct Mark {
    /// How many candidates stand before those of its ballot.
    pub(crate) start: u32,
    /// How many ballots stand before it.
    pub(crate) first: u32,
}

/// The ballot that `i` of `len` ballots stand before.
#[tactic(auto, using(crate::proofs::Kept::rise_found, crate::proofs::Kept::end_le))]
pub(crate) fn row_at<'a>(marks: &[Mark], cells: &'a [Cand], len: u32, i: u32) -> &'a [Cand]
    requires marks { AreMarks marks.now cells.now len }
    requires start { next_first marks.now len ≡ 0 }
    requires within { i < length (ballots_of marks.now cells.now len) }
    ensures { slice_get (ballots_of marks.now cells.now len) i ≡ Some result.now }
{
    let next = runs_up_to(marks, i);
    &cells[start_at(marks, cells.len(), next - 1)..start_at(marks, cells.len(), next)]
}

/// How many runs begin at the ballot that `i` stand before, or earlier.
fn runs_up_to(marks: &[Mark], i: u32) -> usize
    requires { (cells : List ℕ) × (len : ℕ) × AreMarks marks.now cells len }
    ensures within { result ≤ length marks.now }
    ensures earlier { (k : ℕ) (d : Mark) → k < result → (slice_index_or marks.now k d).first ≤ i }
    ensures later { (k : ℕ) (d : Mark) → result ≤ k → k < length marks.now → i < (slice_index_or marks.now k d).first }
{
    marks.partition_point(|mark| mark.first <= i)
}

/// Where the run with this number, from 0, starts in so many cells; that many where there is no such run.
pub(crate) fn start_at(marks: &[Mark], size: usize, run: usize) -> usize
    requires { run ≤ length marks.now }
    ensures { result ≡ next_start (drop run marks.now) size }
{
    match marks.get(run) {
        Some(mark) => mark.start as usize,
        None => size,
    }
}

/// How many of `len` ballots stand before the first of these runs; all of them where there is no run.
pub(crate) fn first_of_runs(marks: &[Mark], len: u32) -> u32
    ensures { result ≡ next_first marks.now len }
{
    match marks.first() {
        Some(mark) => mark.first,
        None => len,
    }
}

/// Whether the last run is of this ballot.
#[tactic(auto, using(crate::proofs::Kept::start_before))]
pub(crate) fn ends_with(marks: &[Mark], cells: &[Cand], len: u32, row: &[Cand]) -> bool
    requires { AreMarks marks.now cells.now len }
    ensures { IsTrue result ↔ (last_row marks.now cells.now ≡ Some row.now) }
{
    match marks.last() {
        Some(mark) => &cells[mark.start as usize..] == row,
        None => false,
    }
}
