// Whether the rows of a goal hold.
ghost use Rattle.std.specs.Prelude.{◌≡◌, ◌↔◌, ◌<◌, ◌≤◌, ◌*◌, All, length, IsTrue, pos, ◌≤ℤ◌};
ghost use Rattle.mov_base.specs.Sums.{add_up, sum_z};
ghost use Rattle.condorcet_count.specs.Preferences.{pref_of};
ghost use Rattle.irv_count.specs.Orders.{IsOrder};
ghost use Rattle.goal_rows.specs.Goals.{Holds, IsComplete, gainer_points, loser_points, rows_of};
ghost use Rattle.goal_rows.specs.Suffixes.{cover_rows, suffix_rows};
ghost use Rattle.ballot_form.specs.Ballots.{AreDistinct};
ghost use Rattle.goal_rows.specs.Races.{election_of};

use crate::goals::Goal;
use crate::parts::Race;
use crate::points::{for_gainer, for_loser, preference};
use ballot_form::{Cand, Roll};
use irv_count::legal_order;

// As many candidates as there are at most.
const MOST_COUNTS: usize = 40;

/// As many rows as any goal has: a goal of 40 places has one for each two.
pub const MOST_ROWS: usize = 780;

/// How many rows a goal has.
pub fn row_count(race: &Race<'_>, goal: &Goal) -> usize
    ensures { result ≡ length (rows_of (election_of race.now) goal.now) }
{
    match goal {
        Goal::Root => 0,
        Goal::Suffix(suffix) => pairs_among(suffix.as_slice()),
        Goal::Pair(_, _) => 1,
        Goal::Cover(x) => others_count(race.roll.candidates(), *x),
    }
}

/// How many pairs there are of the suffix's candidates: its rows.
fn pairs_among(suffix: &[Cand]) -> usize
    requires { AreDistinct suffix.now }
    ensures { result ≡ length (suffix_rows suffix.now) }
{
    let m = suffix.len();
    if m == 0 { 0 } else { m * (m - 1) / 2 }
}

/// How many candidates below c there are other than x.
fn others_count(c: u8, x: Cand) -> usize
    ensures { result ≡ length (cover_rows c x) }
{
    if x < c {
        usize::from(c) - 1
    } else {
        usize::from(c)
    }
}

/// Whether all rows of the complete goal hold on the ballots. The scratch has room for the rows of every goal. It takes
/// no memory.
#[tactic(auto, using(crate::proofs::PairLevels::level_holds))]
pub fn rows_hold(race: &Race<'_>, after: &Roll, goal: &Goal, scratch: &mut [i64]) -> bool
    requires complete { IsComplete (election_of race.now) goal.now }
    requires same_sizes { after.now.c ≡ race.now.roll.now.c }
    requires same_length { length after.now.ballots ≡ length race.now.roll.now.ballots }
    requires room { MOST_ROWS ≤ length scratch.old }
    ensures { IsTrue result ↔ Holds (election_of race.now) goal.now after.now.ballots }
{
    let _ = scratch;
    match goal {
        Goal::Root => unreachable!(),
        Goal::Suffix(suffix) => is_legal(after, suffix.as_slice()),
        Goal::Pair(gainer, loser) => is_level(race, after, *gainer, *loser),
        Goal::Cover(x) => is_unbeaten(after, *x),
    }
}

/// Whether what the ballots count for the gainer reaches what they count for the loser.
fn is_level(race: &Race<'_>, roll: &Roll, gainer: Cand, loser: Cand) -> bool
    ensures { IsTrue result ↔ (add_up (loser_points (election_of race.now) gainer loser) roll.now.ballots
        ≤ add_up (gainer_points (election_of race.now) gainer loser) roll.now.ballots) }
{
    let (gained, lost) = ballot_counts(race, roll, gainer, loser);
    lost <= gained
}

/// What the ballots count for the gainer, and what they count for the loser.
#[tactic(auto, using(ballot_form::proofs::RunSums::sum_of_run, ballot_form::proofs::RunSums::length_of_run))]
fn ballot_counts(race: &Race<'_>, roll: &Roll, gainer: Cand, loser: Cand) -> (u64, u64)
    ensures gained { result.0 ≡ add_up (gainer_points (election_of race.now) gainer loser) roll.now.ballots }
    ensures lost { result.1 ≡ add_up (loser_points (election_of race.now) gainer loser) roll.now.ballots }
{
    let mut gained = 0;
    let mut lost = 0;
    for run in roll.runs() {
        let count = u64::from(run.count);
        gained += count * for_gainer(race, gainer, loser, run.row);
        lost += count * for_loser(race, gainer, loser, run.row);
    }
    (gained, lost)
}

/// Whether the rows of the suffix of all candidates hold: whether its order is legal.
fn is_legal(roll: &Roll, order: &[Cand]) -> bool
    requires { IsOrder roll.now.c order.now }
    ensures { IsTrue result
        ↔ All (λ weight. pos 0 ≤ℤ sum_z weight roll.now.ballots) (suffix_rows order.now) }
{
    let c = usize::from(roll.candidates());
    let mut counts = [0; MOST_COUNTS];
    legal_order(roll, order, &mut counts[..c])
}

/// Whether the rows of the candidate's cover hold: whether no other one is preferred to it by more ballots than prefer
/// it.
fn is_unbeaten(roll: &Roll, x: Cand) -> bool
    ensures { IsTrue result
        ↔ All (λ weight. pos 0 ≤ℤ sum_z weight roll.now.ballots) (cover_rows roll.now.c x) }
{
    for j in 0..roll.candidates() {
        if j != x && is_beaten_by(roll, x, j) {
            return false;
        }
    }
    true
}

/// Whether more ballots prefer the other one to the candidate than the candidate to it.
fn is_beaten_by(roll: &Roll, x: Cand, other: Cand) -> bool
    ensures { IsTrue result ↔ (pref_of roll.now.ballots x other < pref_of roll.now.ballots other x) }
{
    let (over, under) = preferences(roll, x, other);
    over < under
}

/// How many ballots prefer the first candidate to the second, and how many the second to the first.
fn preferences(roll: &Roll, x: Cand, y: Cand) -> (u64, u64)
    ensures first { result.0 ≡ pref_of roll.now.ballots x y }
    ensures second { result.1 ≡ pref_of roll.now.ballots y x }
{
    let mut over = 0;
    let mut under = 0;
    for run in roll.runs() {
        let count = u64::from(run.count);
        over += count * preference(run.row, x, y);
        under += count * preference(run.row, y, x);
    }
    (over, under)
}
