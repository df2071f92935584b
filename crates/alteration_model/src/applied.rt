// The roll after an alteration.
ghost use Rattle.std.specs.Prelude.{◌≡◌, ◌+◌, ◌<◌, ◌≤◌, ◌∷◌, ◌++◌, IfOk, IfSome, IsNone, OnOk, length, replicate, slice_get};
ghost use Rattle.ballot_form.specs.Alterations.{IsAlteration, IsAlterationFrom, after};
ghost use Rattle.ballot_form.specs.Ballots.{IsValidBallot};
ghost use Rattle.alteration_model.specs.AddedRuns.{AddsRun};

use crate::Alteration;
use ballot_form::{Cand, MOST_BALLOTS, PushFault, Ranking, Roll, Run};
use mov_base::Memory;
use std::alloc::Global;

/// The roll with each ballot that the alteration names replaced.
pub fn apply(alloc: Global, roll: &Roll, changes: &Alteration) -> Result<Roll, Memory>
    requires { IsAlteration roll.now changes.now }
    ensures { IfOk result (λ altered. altered ≡ after roll.now changes.now) }
{
    let mut altered = Roll::new(alloc, roll.candidates());
    let mut left = changes.as_slice();
    for run in roll.runs() {
        left = push_run(&mut altered, &run, left)?;
    }
    Ok(altered)
}

/// Adds the ballots of a run, with each one replaced that a change names. Gives the changes of ballots behind the run.
fn push_run<'a>(
    altered: &mut Roll,
    run: &Run<'_>,
    changes: &'a [(u32, Ranking)],
) -> Result<&'a [(u32, Ranking)], Memory>
    requires valid { IsValidBallot altered.old.c run.now.row.now }
    requires changes { IsAlterationFrom altered.old.c run.now.first MOST_BALLOTS changes.now }
    requires place { length altered.old.ballots + 1 ≡ run.now.first }
    requires few { run.now.first + run.now.count ≤ MOST_BALLOTS + 1 }
    ensures { IfOk result (λ left. AddsRun altered.old run.now changes.now altered.new left.now) }
{
    let end = run.first + run.count;
    let mut number = run.first;
    let mut left = changes;
    while let Some((change, later)) = first_before(left, end) {
        push_equal(altered, run.row, change.0 - number)?;
        push_equal(altered, change.1.as_slice(), 1)?;
        number = change.0 + 1;
        left = later;
    }
    push_equal(altered, run.row, end - number)?;
    Ok(left)
}

/// The first change, where it is of a ballot before this number, and those after it.
fn first_before(
    changes: &[(u32, Ranking)],
    end: u32,
) -> Option<(&(u32, Ranking), &[(u32, Ranking)])>
    ensures some { IfSome result (λ split. (changes.now ≡ split.0.now ∷ split.1.now) × (split.0.now.0 < end)) }
    ensures none { IsNone result → IfSome (slice_get changes.now 0) (λ change. end ≤ change.0) }
{
    let (first, later) = changes.split_first()?;
    if first.0 < end {
        Some((first, later))
    } else {
        None
    }
}

/// Adds equal ballots to a roll that has room for them.
fn push_equal(roll: &mut Roll, row: &[Cand], count: u32) -> Result<(), Memory>
    requires valid { IsValidBallot roll.old.c row.now }
    requires room { length roll.old.ballots + count ≤ MOST_BALLOTS }
    ensures { OnOk result (roll.new ≡ record roll.old { ballots = roll.old.ballots ++ replicate count row.now }) }
{
    match roll.push_times(row, count) {
        Ok(()) => Ok(()),
        Err(PushFault::Memory) => Err(std::alloc::AllocError),
        Err(PushFault::TooMany) => unreachable!(),
    }
}
