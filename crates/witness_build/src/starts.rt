// Where a search begins.
ghost use Rattle.std.specs.Prelude.{◌≡◌, ◌↔◌, All, None, IfOk, IfSome, IsTrue, length};
ghost use Rattle.ballot_form.specs.declared.rule.Rule.TheVariants.{Irv};
ghost use Rattle.goal_rows.specs.Goals.{IsDecidedByPairs, root_goals};
ghost use Rattle.goal_rows.specs.Races.{IsRace, election_of};
ghost use Rattle.witness_build.specs.Nearest.{IsNearestSoFar, is_closer as closer_than};
ghost use Rattle.witness_build.specs.Starts.{IsStart, has_no_winner};
ghost use Rattle.witness_build.specs.Witnesses.{IsMetBy, IsPair, IsStartWitness};

use crate::covers::cover_witness;
use crate::levels::{Level, level_of};
use crate::pairs::{Witness, witness_at};
use crate::rounds::last_round;
use ballot_form::{Outcome, Rule};
use goal_rows::ground;
use goal_rows::parts::{Ground, Race};
use mov_base::Memory;
use std::alloc::Global;

/// Where a search begins: where the contest is decided by pairs, the cheapest replacements of the first root pair that
/// the fewest bring level; where Condorcet's rule reports no winner, the shortest walk for a cover; and under instant
/// runoff the cuts of the last round. None exactly where there is one candidate. The race has its own roots.
pub fn start_witness(alloc: Global, race: &Race<'_>) -> Result<Option<Witness>, Memory>
    requires race { IsRace race.now }
    requires own { race.now.roots ≡ root_goals race.now.rule race.now.roll.now.c race.now.reported }
    ensures none { IfOk result (λ found. (found ≡ None) ↔ (race.now.roll.now.c ≡ 1)) }
    ensures start { IfOk result (λ found. IfSome found (λ w. IsStart (election_of race.now) w.goal w.changes)) }
    ensures met { IfOk result (λ found. IfSome found (λ w. IsMetBy (election_of race.now) w.goal w.changes)) }
{
    if race.roll.candidates() == 1 {
        return Ok(None);
    }
    if is_for_covers(race) {
        return Ok(Some(cover_witness(alloc, race)?));
    }
    if is_runoff(race.rule) {
        return Ok(Some(last_round(alloc, race)?));
    }
    nearest_witness(alloc, race)
}

/// Whether Condorcet's rule reports no winner.
fn is_for_covers(race: &Race<'_>) -> bool
    ensures { result ≡ has_no_winner race.now.rule race.now.reported }
{
    match (race.rule, &race.reported) {
        (Rule::Condorcet, Outcome::NoWinner) => true,
        _ => false,
    }
}

/// Whether the rule is instant runoff.
fn is_runoff(rule: Rule) -> bool
    ensures { IsTrue result ↔ (rule ≡ Irv) }
{
    matches!(rule, Rule::Irv)
}

/// The cheapest replacements of the first root pair that the fewest bring level; none exactly where there is one
/// candidate. The race has its own roots, and they are pairs.
fn nearest_witness(alloc: Global, race: &Race<'_>) -> Result<Option<Witness>, Memory>
    requires race { IsRace race.now }
    requires own { race.now.roots ≡ root_goals race.now.rule race.now.roll.now.c race.now.reported }
    requires pairs { IsDecidedByPairs race.now.rule race.now.reported }
    ensures none { IfOk result (λ found. (found ≡ None) ↔ (race.now.roll.now.c ≡ 1)) }
    ensures start { IfOk result (λ found. IfSome found (λ w. IsStartWitness (election_of race.now) w.goal w.changes)) }
    ensures met { IfOk result (λ found. IfSome found (λ w. IsMetBy (election_of race.now) w.goal w.changes)) }
{
    match nearest(alloc, race)? {
        Some(near) => Ok(Some(witness_at(alloc, race, &near.start, near.level)?)),
        None => Ok(None),
    }
}

/// A root pair, and its level.
#[derive(Drop)]
struct Near {
    start: Ground,
    level: Level,
}

/// The first root pair that the fewest replacements bring level.
fn nearest(alloc: Global, race: &Race<'_>) -> Result<Option<Near>, Memory>
    requires race { IsRace race.now }
    requires pairs { All IsPair race.now.roots }
    ensures { IfOk result (IsNearestSoFar (election_of race.now) (length race.now.roots)) }
{
    let mut near: Option<Near> = None;
    for goal in race.roots.as_slice() {
        let start = ground(alloc, race, goal)?;
        let level = level_of(alloc, &start)?;
        if is_closer(level, &near) {
            near = Some(Near { start, level });
        }
    }
    Ok(near)
}

/// Whether the level takes fewer replacements than what is the nearest so far.
fn is_closer(level: Level, near: &Option<Near>) -> bool
    ensures { result ≡ closer_than level.count near.now }
{
    match near {
        Some(near) => level.count < near.level.count,
        None => true,
    }
}
