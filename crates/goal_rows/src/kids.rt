// The goals that a goal is split into.
ghost use Rattle.std.specs.Prelude.{◌≡◌, nat_lt, false, ◌∷◌, Some, None, if◌then◌else◌, length, option_map, IfOk};
ghost use Rattle.ballot_form.specs.Ballots.{AreDistinct};
ghost use Rattle.irv_count.specs.Orders.{member};
ghost use Rattle.goal_rows.specs.Goals.{cover_of, longer_suffixes};
ghost use Rattle.goal_rows.specs.Races.{election_of};

use crate::goals::{Goal, GoalList};
use crate::parts::Race;
use crate::races::alone;
use ballot_form::{Cand, Ranking};
use mov_base::Memory;
use std::alloc::Global;

/// The goals that a goal is split into; none where it has no cover.
pub fn cover(alloc: Global, race: &Race<'_>, goal: &Goal) -> Result<Option<GoalList>, Memory>
    ensures { IfOk result (λ kids. kids ≡ cover_of (election_of race.now) goal.now) }
{
    match goal {
        Goal::Root => Ok(Some(race.roots.copy()?)),
        Goal::Suffix(suffix) => longer(alloc, race.roll.candidates(), suffix.as_slice()),
        Goal::Pair(_, _) => Ok(None),
        Goal::Cover(_) => Ok(None),
    }
}

/// The suffixes with one of the candidates more, in front; none where it has all of them.
fn longer(alloc: Global, c: u8, suffix: &[Cand]) -> Result<Option<GoalList>, Memory>
    requires { AreDistinct suffix.now }
    ensures { IfOk result (λ kids.
        kids ≡ (if nat_lt (length suffix.now) c then Some (longer_suffixes c suffix.now) else None)) }
{
    if suffix.len() >= usize::from(c) {
        return Ok(None);
    }
    let mut kids = GoalList::new(alloc);
    for z in 0..c {
        if !has(suffix, z) {
            kids.push(Goal::Suffix(in_front(alloc, z, suffix)?))?;
        }
    }
    Ok(Some(kids))
}

/// Whether the candidate is one of these.
pub(crate) fn has(candidates: &[Cand], z: Cand) -> bool
    ensures { result ≡ member z candidates.now }
{
    for x in candidates {
        if *x == z {
            return true;
        }
    }
    false
}

/// The suffix with the candidate put in front.
pub(crate) fn in_front(alloc: Global, z: Cand, suffix: &[Cand]) -> Result<Ranking, Memory>
    requires distinct { AreDistinct suffix.now }
    requires another { member z suffix.now ≡ false }
    ensures { IfOk result (λ ranking. ranking ≡ z ∷ suffix.now) }
{
    let mut ranking = alone(alloc, z)?;
    for x in suffix {
        ranking.push(*x)?;
    }
    Ok(ranking)
}

/// How many goals a goal is split into; none where it has no cover. It takes no memory.
pub fn kid_count(race: &Race<'_>, goal: &Goal) -> Option<usize>
    ensures { result ≡ option_map length (cover_of (election_of race.now) goal.now) }
{
    match goal {
        Goal::Root => Some(race.roots.len()),
        Goal::Suffix(suffix) => longer_count(race.roll.candidates(), suffix.as_slice()),
        Goal::Pair(_, _) => None,
        Goal::Cover(_) => None,
    }
}

/// How many suffixes there are with one of the candidates more; none where it has all of them.
fn longer_count(c: u8, suffix: &[Cand]) -> Option<usize>
    ensures { result ≡ option_map length
        (if nat_lt (length suffix.now) c then Some (longer_suffixes c suffix.now) else None) }
{
    if suffix.len() >= usize::from(c) {
        return None;
    }
    let mut count = 0;
    for z in 0..c {
        if !has(suffix, z) {
            count += 1;
        }
    }
    Some(count)
}
