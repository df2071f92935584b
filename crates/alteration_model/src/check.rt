// The judgement of claimed replacements.
ghost use Rattle.std.specs.Prelude.{◌≡◌, ◌+◌, ◌≤◌, All, Some, IfOk, length};
ghost use Rattle.ballot_form.specs.Alterations.{IsAlteration};
ghost use Rattle.ballot_form.specs.Ballots.{AreDistinct};
ghost use Rattle.alteration_model.specs.Faults.{IsFirstFault, IsPutFault, Judges, pairs_of};

use crate::{AlterFault, Alteration, Put};
use ballot_form::{Ranking, Roll, valid_row};
use mov_base::Memory;
use std::alloc::Global;

/// The alteration of the roll that the puts are, or the fault of the first bad put. Of several faults of one put the first of this
/// order counts: its number, its order, its ballot.
#[tactic(auto, using(crate::proofs::Judged::judges_fault, crate::proofs::Judged::is_alteration))]
pub fn check_alteration(alloc: Global, roll: &Roll, puts: &[Put]) -> Result<Alteration, AlterFault>
    ensures gives { Judges roll.now puts.now result }
    ensures alteration { IfOk result (λ changes. IsAlteration roll.now changes) }
{
    if let Some(fault) = first_fault(roll, puts) {
        return Err(fault);
    }
    Ok(Alteration::from_puts(alloc, roll, puts)?)
}

/// The fault of the first bad put.
fn first_fault(roll: &Roll, puts: &[Put]) -> Option<AlterFault>
    ensures { IsFirstFault roll.now puts.now result }
{
    let mut last = 0;
    for (i, put) in puts.iter().enumerate() {
        if let Some(fault) = put_fault(roll, put, i, last) {
            return Some(fault);
        }
        last = put.number;
    }
    None
}

/// What is wrong with one put.
fn put_fault(roll: &Roll, put: &Put, at: usize, last: u32) -> Option<AlterFault>
    ensures { IsPutFault roll.now at last put.now result }
{
    if put.number < 1 || roll.len() < put.number {
        Some(AlterFault::NumberRange(at))
    } else if put.number <= last {
        Some(AlterFault::NotAscending(at))
    } else if valid_row(put.ballot.as_slice(), roll.candidates()) {
        None
    } else {
        Some(AlterFault::BadBallot(at))
    }
}

/// The numbers and rankings of puts whose ballots name no candidate twice.
pub(crate) fn changes_of(alloc: Global, puts: &[Put]) -> Result<Vec<(u32, Ranking)>, Memory>
    requires { All (λ put. AreDistinct put.ballot) puts.now }
    ensures { IfOk result (λ changes. changes.items ≡ pairs_of puts.now) }
{
    let mut changes = Vec::with_capacity(alloc, puts.len())?;
    for put in puts {
        changes.push((
            put.number,
            Ranking::from_slice(alloc, put.ballot.as_slice())?,
        ))?;
    }
    Ok(changes)
}
