// The last round of instant runoff.
ghost use Rattle.std.specs.Prelude.{◌≡◌, ◌≤◌, ◌+◌, ◌++◌, ◌<◌, ◌^◌, IfOk, OnOk, map, take};
ghost use Rattle.std.specs.List.{range_with_len};
ghost use Rattle.alteration_model.specs.Faults.{pairs_of};
ghost use Rattle.ballot_form.specs.Ballots.{IsPoll};
ghost use Rattle.ballot_form.specs.Scores.{is_some_of};
ghost use Rattle.ballot_form.specs.declared.rule.Rule.TheVariants.{Irv};
ghost use Rattle.irv_count.specs.Orders.{held_count, holder};
ghost use Rattle.goal_rows.specs.Goals.{root_goals};
ghost use Rattle.goal_rows.specs.Races.{IsRace, election_of};
ghost use Rattle.witness_build.specs.LastRounds.{IsLastRoundWitness, cut_at, cuts_from, last_cuts as cuts_of, last_two};
ghost use Rattle.witness_build.specs.Witnesses.{IsMetBy};

use crate::pairs::Witness;
use alteration_model::{Alteration, Put, apply};
use ballot_form::{Cand, CandList, Roll};
use goal_rows::Goal;
use goal_rows::parts::Race;
use irv_count::{count_irv, order_against};
use mov_base::Memory;
use std::alloc::Global;

/// The replacements that take the last round of instant runoff from the winner: the first ballots, by number, that it
/// holds in that round, half as many as it is ahead, rounded up, are cut off at it, and the one who goes out there is
/// put in its place. The goal is the order after them that is against the winner at each tie. The race has its own
/// roots, and two candidates or more.
pub fn last_round(alloc: Global, race: &Race<'_>) -> Result<Witness, Memory>
    requires race { IsRace race.now }
    requires own { race.now.roots ≡ root_goals race.now.rule race.now.roll.now.c race.now.reported }
    requires rule { race.now.rule ≡ Irv }
    requires others { 2 ≤ race.now.roll.now.c }
    ensures last { IfOk result (λ w. IsLastRoundWitness (election_of race.now) w.goal w.changes) }
    ensures met { IfOk result (λ w. IsMetBy (election_of race.now) w.goal w.changes) }
{
    let order = count_irv(alloc, race.roll)?;
    let places = order.as_slice();
    let winner = places[places.len() - 1];
    let loser = places[places.len() - 2];
    let changes = last_cuts(alloc, race.roll, winner, loser)?;
    let altered = apply(alloc, race.roll, &changes)?;
    let against = order_against(alloc, &altered, winner)?;
    Ok(Witness {
        goal: Goal::Suffix(against),
        changes,
    })
}

/// The cuts that bring the loser of the last round level with the winner.
fn last_cuts(alloc: Global, roll: &Roll, winner: Cand, loser: Cand) -> Result<Alteration, Memory>
    requires poll { IsPoll roll.now }
    requires loser { loser < roll.now.c }
    ensures { IfOk result (λ changes. changes ≡ cuts_of roll.now winner loser) }
{
    let over = last_count(roll, winner, loser, winner);
    let under = last_count(roll, winner, loser, loser);
    let lead = over.saturating_sub(under);
    let puts = first_cuts(alloc, roll, winner, loser, lead.div_ceil(2))?;
    Alteration::from_puts(alloc, roll, puts.as_slice())
}

/// How many ballots one of the last two holds in the last round.
fn last_count(roll: &Roll, winner: Cand, loser: Cand, one: Cand) -> u32
    ensures { result ≡ held_count (last_two winner loser) roll.now.ballots one }
{
    let mut count = 0;
    for run in roll.runs() {
        if holds_in_last(run.row, winner, loser, one) {
            count += run.count;
        }
    }
    count
}

/// Whether one of the last two holds the ballot.
fn holds_in_last(row: &[Cand], winner: Cand, loser: Cand, one: Cand) -> bool
    ensures { result ≡ is_some_of (holder (last_two winner loser) row.now) one }
{
    last_holder(row, winner, loser) == Some(one)
}

/// Who of the last two holds the ballot.
fn last_holder(row: &[Cand], winner: Cand, loser: Cand) -> Option<Cand>
    ensures { result ≡ holder (last_two winner loser) row.now }
{
    row.iter().copied().find(|z| *z == winner || *z == loser)
}

/// The cuts of the first so many ballots that the winner holds in the last round.
fn first_cuts(
    alloc: Global,
    roll: &Roll,
    winner: Cand,
    loser: Cand,
    most: u32,
) -> Result<Vec<Put>, Memory>
    ensures { IfOk result (λ puts. pairs_of puts.items ≡ take most (cuts_from winner loser 1 roll.now.ballots)) }
{
    let mut puts = Vec::new(alloc);
    let mut left = most;
    for run in roll.runs() {
        if left == 0 {
            break;
        }
        if holds_in_last(run.row, winner, loser, winner) {
            let count = left.min(run.count);
            let cut = cut(alloc, run.row, winner, loser)?;
            push_equal(alloc, &mut puts, cut.as_slice(), run.first, count)?;
            left -= count;
        }
    }
    Ok(puts)
}

/// The ballot cut off at the winner, with the loser in its place.
fn cut(alloc: Global, row: &[Cand], winner: Cand, loser: Cand) -> Result<CandList, Memory>
    ensures { IfOk result (λ ballot. ballot ≡ cut_at winner loser row.now) }
{
    let mut ballot = CandList::new(alloc);
    for y in row {
        if *y == winner {
            ballot.push(loser)?;
            return Ok(ballot);
        }
        ballot.push(*y)?;
    }
    Ok(ballot)
}

/// Adds the replacements of so many ballots, from this number on, by equal ones.
fn push_equal(
    alloc: Global,
    puts: &mut Vec<Put>,
    ballot: &[Cand],
    first: u32,
    count: u32,
) -> Result<(), Memory>
    requires { first + count < 2 ^ 32 }
    ensures { OnOk result (pairs_of puts.new.items
        ≡ pairs_of puts.old.items ++ map (λ number. (number, ballot.now)) (range_with_len first count)) }
{
    for i in 0..count {
        puts.push(Put {
            number: first + i,
            ballot: CandList::from_slice(alloc, ballot)?,
        })?;
    }
    Ok(())
}
