// Goals where the outcome turns.
ghost use Rattle.std.specs.Prelude.{◌≡◌, ◌↔◌, [], ◌∷◌, Contains, IsTrue};
ghost use Rattle.goal_rows.specs.Goals.{IsComplete};
ghost use Rattle.goal_rows.specs.Races.{election_of};
ghost use Rattle.goal_rows.specs.declared.goals.Goal.TheVariants.{Cover, Pair, Suffix};

use crate::goals::Goal;
use crate::parts::Race;
use ballot_form::Cand;
use irv_count::is_order;

/// Whether the outcome turns where all rows of the goal hold.
pub fn is_complete(race: &Race<'_>, goal: &Goal) -> bool
    ensures { IsTrue result ↔ IsComplete (election_of race.now) goal.now }
{
    match goal {
        Goal::Root => false,
        Goal::Suffix(suffix) => is_whole(race, suffix.as_slice()),
        Goal::Pair(gainer, loser) => has_pair(race.roots.as_slice(), *gainer, *loser),
        Goal::Cover(x) => has_cover(race.roots.as_slice(), *x),
    }
}

/// Whether the suffix has each candidate once, and its last one alone is among the root's.
fn is_whole(race: &Race<'_>, suffix: &[Cand]) -> bool
    ensures { IsTrue result ↔ IsComplete (election_of race.now) (Suffix suffix.now) }
{
    match suffix.last() {
        Some(y) => {
            is_order(suffix, race.roll.candidates()) && has_last(race.roots.as_slice(), *y)
        }
        None => false,
    }
}

/// Whether the pair is among the goals.
fn has_pair(goals: &[Goal], gainer: Cand, loser: Cand) -> bool
    ensures { IsTrue result ↔ Contains goals.now (Pair gainer loser) }
{
    for goal in goals {
        if is_pair(goal, gainer, loser) {
            return true;
        }
    }
    false
}

/// Whether the goal is this pair.
fn is_pair(goal: &Goal, gainer: Cand, loser: Cand) -> bool
    ensures { IsTrue result ↔ (goal.now ≡ Pair gainer loser) }
{
    match goal {
        Goal::Pair(g, l) => *g == gainer && *l == loser,
        Goal::Root => false,
        Goal::Suffix(_) => false,
        Goal::Cover(_) => false,
    }
}

/// Whether the cover is among the goals.
fn has_cover(goals: &[Goal], x: Cand) -> bool
    ensures { IsTrue result ↔ Contains goals.now (Cover x) }
{
    for goal in goals {
        if is_cover(goal, x) {
            return true;
        }
    }
    false
}

/// Whether the goal is the cover of this candidate.
fn is_cover(goal: &Goal, x: Cand) -> bool
    ensures { IsTrue result ↔ (goal.now ≡ Cover x) }
{
    match goal {
        Goal::Cover(y) => *y == x,
        Goal::Root => false,
        Goal::Suffix(_) => false,
        Goal::Pair(_, _) => false,
    }
}

/// Whether the suffix of this candidate alone is among the goals.
fn has_last(goals: &[Goal], y: Cand) -> bool
    ensures { IsTrue result ↔ Contains goals.now (Suffix (y ∷ [])) }
{
    for goal in goals {
        if is_last(goal, y) {
            return true;
        }
    }
    false
}

/// Whether the goal is the suffix of this candidate alone.
fn is_last(goal: &Goal, y: Cand) -> bool
    ensures { IsTrue result ↔ (goal.now ≡ Suffix (y ∷ [])) }
{
    match goal {
        Goal::Suffix(suffix) => is_alone(suffix.as_slice(), y),
        Goal::Root => false,
        Goal::Pair(_, _) => false,
        Goal::Cover(_) => false,
    }
}

/// Whether the list is this candidate alone.
fn is_alone(candidates: &[Cand], y: Cand) -> bool
    ensures { IsTrue result ↔ (candidates.now ≡ y ∷ []) }
{
    match candidates {
        [x] => *x == y,
        _ => false,
    }
}
