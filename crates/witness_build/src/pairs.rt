// The cheapest replacements of a pair.
ghost use Rattle.std.specs.Prelude.{◌≡◌, IfOk, length};
ghost use Rattle.alteration_model.specs.Faults.{pairs_of};
ghost use Rattle.goal_rows.specs.Goals.{IsReached};
ghost use Rattle.goal_rows.specs.Pairs.{puts_of};
ghost use Rattle.goal_rows.specs.Races.{IsGroundIn, IsRace, election_of};
ghost use Rattle.witness_build.specs.Levels.{IsLevelUnder};
ghost use Rattle.witness_build.specs.Witnesses.{IsMetBy, IsPair, IsWitnessOf};

use crate::chosen::first_numbers;
use crate::levels::{Level, level_of};
use alteration_model::{Alteration, Put};
use ballot_form::{Cand, CandList};
use goal_rows::parts::{Ground, Race};
use goal_rows::{Goal, ground};
use mov_base::Memory;
use std::alloc::Global;

/// Replacements after which all rows of a complete goal hold.
#[derive(Debug, Drop)]
pub struct Witness {
    /// The goal.
    pub goal: Goal,
    /// The replacements.
    pub changes: Alteration,
}

/// The cheapest replacements of a pair that is the root's: as few as bring it level, each by the ballot that ranks the
/// gainer alone, of the ballots with the largest gains, the lower number first at equal gains.
pub fn pair_witness(alloc: Global, race: &Race<'_>, goal: &Goal) -> Result<Witness, Memory>
    requires race { IsRace race.now }
    requires pair { IsPair goal.now }
    requires reached { IsReached (election_of race.now) goal.now }
    ensures goal { IfOk result (λ witness. witness.goal ≡ goal.now) }
    ensures least { IfOk result (λ witness. IsWitnessOf (election_of race.now) witness.goal witness.changes) }
    ensures met { IfOk result (λ witness. IsMetBy (election_of race.now) witness.goal witness.changes) }
{
    let start = ground(alloc, race, goal)?;
    let level = level_of(alloc, &start)?;
    witness_at(alloc, race, &start, level)
}

/// The cheapest replacements of a pair, whose level is known.
pub(crate) fn witness_at(
    alloc: Global,
    race: &Race<'_>,
    start: &Ground,
    level: Level,
) -> Result<Witness, Memory>
    requires race { IsRace race.now }
    requires start { IsGroundIn (election_of race.now) start.now }
    requires pair { IsPair start.now.goal }
    requires level { IsLevelUnder start.now level }
    ensures goal { IfOk result (λ witness. witness.goal ≡ start.now.goal) }
    ensures least { IfOk result (λ witness. IsWitnessOf (election_of race.now) witness.goal witness.changes) }
    ensures size { IfOk result (λ witness. length witness.changes ≡ level.count) }
    ensures met { IfOk result (λ witness. IsMetBy (election_of race.now) witness.goal witness.changes) }
{
    let Goal::Pair(gainer, _) = start.goal else {
        unreachable!()
    };
    let numbers = first_numbers(alloc, race, start, level)?;
    let puts = puts_for(alloc, gainer, numbers.as_slice())?;
    let changes = Alteration::from_puts(alloc, race.roll, puts.as_slice())?;
    let goal = start.goal.copy()?;
    Ok(Witness { goal, changes })
}

/// The replacements of these ballots by the one that ranks the gainer alone.
pub(crate) fn puts_for(alloc: Global, gainer: Cand, numbers: &[u32]) -> Result<Vec<Put>, Memory>
    ensures { IfOk result (λ puts. pairs_of puts.items ≡ puts_of gainer numbers.now) }
{
    let mut puts = Vec::with_capacity(alloc, numbers.len())?;
    for number in numbers {
        puts.push(Put {
            number: *number,
            ballot: CandList::from_slice(alloc, &[gainer])?,
        })?;
    }
    Ok(puts)
}
