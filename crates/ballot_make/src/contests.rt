// Made contests.
ghost use Rattle.std.specs.Prelude.{◌≡◌, ◌++◌, ◌∷◌, [], ◌<◌, ◌≤◌, length, IfOk, OnOk};
ghost use Rattle.ballot_form.specs.Ballots.{IsValidBallot};
ghost use Rattle.ballot_make.specs.Made.{names_made, poll_made};

use crate::ballots::draw_ballot;
use crate::draws::Draws;
use crate::names::make_names;
use ballot_form::{Cand, Contest, MOST_BALLOTS, MOST_CANDIDATES, PushFault, Roll};
use mov_base::Memory;
use std::alloc::{AllocError, Global};

/// The contest of `c` candidates and `n` ballots that a seed gives. The candidates are named `C0`, `C1` and so on.
pub fn make(alloc: Global, seed: u64, c: u8, n: u32) -> Result<Contest, Memory>
    requires some { 1 ≤ c }
    requires most { c ≤ MOST_CANDIDATES }
    requires few { n ≤ MOST_BALLOTS }
    ensures names { IfOk result (λ contest. contest.names ≡ names_made c) }
    ensures roll { IfOk result (λ contest. contest.roll ≡ poll_made seed c n) }
{
    let names = make_names(alloc, c)?;
    let roll = make_roll(alloc, seed, c, n)?;
    Ok(Contest { names, roll })
}

/// The roll of so many drawn ballots.
fn make_roll(alloc: Global, seed: u64, c: u8, n: u32) -> Result<Roll, Memory>
    requires some { 1 ≤ c }
    requires most { c ≤ MOST_CANDIDATES }
    requires few { n ≤ MOST_BALLOTS }
    ensures { IfOk result (λ roll. roll ≡ poll_made seed c n) }
{
    let mut roll = Roll::new(alloc, c);
    let mut draws = Draws { state: seed };
    for _made in 0..n {
        let ballot = draw_ballot(alloc, c, &mut draws)?;
        push_ballot(&mut roll, ballot.as_slice())?;
    }
    Ok(roll)
}

/// Adds a ballot to a roll that has room for it.
fn push_ballot(roll: &mut Roll, ballot: &[Cand]) -> Result<(), Memory>
    requires valid { IsValidBallot roll.old.c ballot.now }
    requires room { length roll.old.ballots < MOST_BALLOTS }
    ensures { OnOk result (roll.new ≡ record roll.old { ballots = roll.old.ballots ++ ballot.now ∷ [] }) }
{
    match roll.push_times(ballot, 1) {
        Ok(()) => Ok(()),
        Err(PushFault::Memory) => Err(AllocError),
        Err(PushFault::TooMany) => unreachable!(),
    }
}
