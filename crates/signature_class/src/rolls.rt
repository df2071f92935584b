// The kinds of ballots of a roll.
ghost use Rattle.std.specs.Prelude.{◌≡◌, IfOk, map};
ghost use Rattle.std.specs.Str.{bytes_eq};
ghost use Rattle.signature_class.specs.Classes.{classes_of, first_part as first_part_of};

use crate::parts::Kinds;
use ballot_form::{Cand, Roll};
use mov_base::Memory;
use std::alloc::Global;

/// The distinct ballots of the roll in the order in which they are first seen, each with how many there are of it. Each
/// run of equal ballots is looked up once.
#[tactic(auto, using(crate::proofs::Counts::kinds_of_run, crate::proofs::Counts::room_of_run))]
pub fn kinds<'a>(alloc: Global, roll: &'a Roll) -> Result<Kinds<'a>, Memory>
    ensures { IfOk result (λ kinds. kinds ≡ classes_of bytes_eq roll.now.ballots) }
{
    let mut kinds = Kinds::new(alloc);
    for run in roll.runs() {
        kinds.add_times(run.row, run.count)?;
    }
    Ok(kinds)
}

/// The distinct first candidates of the roll's ballots, each as the ballot up to it, in the order in which they are
/// first seen, each with how many ballots begin so. There are at most one more of these than there are candidates.
#[tactic(auto, using(crate::proofs::Counts::firsts_of_run, crate::proofs::Counts::room_of_firsts))]
pub fn first_kinds<'a>(alloc: Global, roll: &'a Roll) -> Result<Kinds<'a>, Memory>
    ensures { IfOk result (λ kinds. kinds ≡ classes_of bytes_eq (map first_part_of roll.now.ballots)) }
{
    let mut first = Kinds::new(alloc);
    for run in roll.runs() {
        first.add_times(first_part(run.row), run.count)?;
    }
    Ok(first)
}

/// The ballot up to its first candidate.
fn first_part(row: &[Cand]) -> &[Cand]
    ensures { result.now ≡ first_part_of row.now }
{
    match row.get(..1) {
        Some(first) => first,
        None => row,
    }
}
