// The cheapest replacements of a cover.
ghost use Rattle.std.specs.Prelude.{◌≡◌, IfOk};
ghost use Rattle.ballot_form.specs.declared.outcome.Outcome.TheVariants.{NoWinner};
ghost use Rattle.ballot_form.specs.declared.rule.Rule.TheVariants.{Condorcet};
ghost use Rattle.goal_rows.specs.Goals.{root_goals};
ghost use Rattle.goal_rows.specs.Races.{IsRace, election_of};
ghost use Rattle.witness_build.specs.CoverWalks.{IsCoverWitness, IsShortestTo, cover_walk};
ghost use Rattle.witness_build.specs.Witnesses.{IsMetBy};

use crate::chosen::NumberList;
use crate::pairs::{Witness, puts_for};
use crate::walks::walk;
use alteration_model::Alteration;
use ballot_form::{Cand, Roll};
use condorcet_count::pairs;
use goal_rows::Goal;
use goal_rows::parts::Race;
use mov_base::Memory;
use std::alloc::Global;

/// The replacements of the shortest walk for a cover, that of the lowest candidate among equals. For each candidate the
/// ballots are gone through by number, and one is replaced by the candidate alone where some row of its cover that is
/// negative then gives the ballot a weight below 1. The race has its own roots, and no winner.
pub fn cover_witness(alloc: Global, race: &Race<'_>) -> Result<Witness, Memory>
    requires race { IsRace race.now }
    requires own { race.now.roots ≡ root_goals race.now.rule race.now.roll.now.c race.now.reported }
    requires rule { race.now.rule ≡ Condorcet }
    requires nobody { race.now.reported ≡ NoWinner }
    ensures shortest { IfOk result (λ w. IsCoverWitness (election_of race.now) w.goal w.changes) }
    ensures met { IfOk result (λ w. IsMetBy (election_of race.now) w.goal w.changes) }
{
    let shortest = shortest_walk(alloc, race.roll)?;
    let puts = puts_for(alloc, shortest.candidate, shortest.numbers.as_slice())?;
    let changes = Alteration::from_puts(alloc, race.roll, puts.as_slice())?;
    Ok(Witness {
        goal: Goal::Cover(shortest.candidate),
        changes,
    })
}

/// The walk of a candidate.
#[derive(Drop)]
struct Walk {
    candidate: Cand,
    numbers: NumberList,
}

/// The shortest walk, that of the lowest candidate among equals.
fn shortest_walk(alloc: Global, roll: &Roll) -> Result<Walk, Memory>
    ensures shortest { IfOk result (λ found. IsShortestTo roll.now roll.now.c found.candidate) }
    ensures numbers { IfOk result (λ found. found.numbers ≡ cover_walk roll.now found.candidate) }
{
    let candidates = roll.candidates();
    let matrix = pairs(alloc, roll)?;
    let mut shortest = Walk {
        candidate: 0,
        numbers: walk(alloc, roll, &matrix, 0)?,
    };
    for x in 1..candidates {
        let numbers = walk(alloc, roll, &matrix, x)?;
        if numbers.len() < shortest.numbers.len() {
            shortest = Walk {
                candidate: x,
                numbers,
            };
        }
    }
    Ok(shortest)
}
