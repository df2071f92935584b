// The ballots to replace.
ghost use Rattle.std.specs.Prelude.{◌≡◌, ◌++◌, ◌+◌, ◌<◌, ◌^◌, IfOk, OnOk};
ghost use Rattle.std.specs.List.{range_with_len};
ghost use Rattle.goal_rows.specs.Races.{IsRace, election_of, IsGroundIn};
ghost use Rattle.witness_build.specs.Levels.{IsLevelUnder, first_from, gains_under};
ghost use Rattle.witness_build.specs.Witnesses.{IsPair};

use crate::levels::{Level, greatest_gain};
use goal_rows::key;
use goal_rows::parts::{Ground, Race};
use mov_base::{List, Memory};
use std::alloc::Global;

/// The numbers of ballots, from 1.
pub(crate) type NumberList = List<u32>;

/// The numbers of all ballots whose gain is above the level's, and of the first ones whose gain is that, ascending.
/// They are found in one pass over the runs of equal ballots, which ends with the last of them.
pub(crate) fn first_numbers(
    alloc: Global,
    race: &Race<'_>,
    start: &Ground,
    level: Level,
) -> Result<NumberList, Memory>
    requires race { IsRace race.now }
    requires start { IsGroundIn (election_of race.now) start.now }
    requires pair { IsPair start.now.goal }
    requires level { IsLevelUnder start.now level }
    ensures { IfOk result (λ numbers.
        numbers ≡ first_from level.gain level.equal 1 (gains_under (election_of race.now) start.now.goal)) }
{
    let greatest = greatest_gain(start);
    let mut equal = level.equal;
    let mut numbers = Vec::with_capacity(alloc, level.count as usize)?;
    for run in race.roll.runs() {
        if numbers.len() == level.count as usize {
            break;
        }
        let gain = greatest - key(race, &start.goal, run.row);
        let count = if gain > level.gain {
            run.count
        } else if gain == level.gain {
            let count = equal.min(run.count);
            equal -= count;
            count
        } else {
            0
        };
        push_numbers(&mut numbers, run.first, count)?;
    }
    Ok(List::from_vec(numbers))
}

/// Adds so many numbers in turn, from the first one on.
pub(crate) fn push_numbers(numbers: &mut Vec<u32>, first: u32, count: u32) -> Result<(), Memory>
    requires { first + count < 2 ^ 32 }
    ensures { OnOk result (numbers.new.items ≡ numbers.old.items ++ range_with_len first count) }
{
    numbers.extend(first..first + count)?;
    Ok(())
}
