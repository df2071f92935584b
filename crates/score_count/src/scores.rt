// The scores of the candidates.
ghost use Rattle.std.specs.Prelude.{◌≡◌, ◌==◌, ◌+◌, ◌*◌, ◌<◌, ◌^◌, if◌then◌else◌, EachIndex, IfOk, length, slice_index};
ghost use Rattle.ballot_form.specs.Ballots.{IsValidBallot};
ghost use Rattle.ballot_form.specs.Scores.{borda_points, plurality_points, score_of};
ghost use Rattle.score_count.specs.Winners.{AreScores};

use ballot_form::{Cand, Roll, ScoreList, first_counts};
use mov_base::Memory;
use std::alloc::Global;

/// For each candidate, how many ballots put it first.
pub fn plurality(alloc: Global, roll: &Roll) -> Result<ScoreList, Memory>
    ensures { IfOk result (λ scores. AreScores plurality_points roll.now scores) }
{
    let mut scores = vec![in alloc; 0u64; roll.candidates() as usize]?;
    set_firsts(roll, scores.as_mut_slice());
    Ok(ScoreList::from_vec(scores))
}

/// Writes for each candidate how many ballots put it first.
#[tactic(auto, using(crate::proofs::Points::scored))]
fn set_firsts(roll: &Roll, scores: &mut [u64])
    requires { length scores.old ≡ roll.now.c }
    ensures { EachIndex scores.new (λ x. slice_index scores.new x ≡ score_of plurality_points roll.now.ballots x) }
{
    first_counts(roll, scores);
}

/// For each candidate, the sum of the points that the ballots give it by its place.
pub fn borda(alloc: Global, roll: &Roll) -> Result<ScoreList, Memory>
    ensures { IfOk result (λ scores. AreScores (borda_points roll.now.c) roll.now scores) }
{
    let mut scores = vec![in alloc; 0u64; roll.candidates() as usize]?;
    add_places(roll, scores.as_mut_slice());
    Ok(ScoreList::from_vec(scores))
}

/// Adds to each candidate's number the points that the ballots give it.
#[tactic(auto, using(crate::proofs::Points::borda_of_run))]
fn add_places(roll: &Roll, scores: &mut [u64])
    requires size { length scores.old ≡ roll.now.c }
    requires none { EachIndex scores.old (λ x. slice_index scores.old x ≡ 0) }
    ensures { EachIndex scores.new (λ x. slice_index scores.new x ≡ score_of (borda_points roll.now.c) roll.now.ballots x) }
{
    let c = roll.candidates();
    for run in roll.runs() {
        give_by_place(c, run.row, run.count, scores);
    }
}

/// Gives each candidate of so many equal ballots the points of its place.
#[tactic(auto, using(crate::proofs::Places::borda_place_times, crate::proofs::Points::borda_times_few))]
fn give_by_place(c: u8, row: &[Cand], count: u32, scores: &mut [u64])
    requires valid { IsValidBallot c row.now }
    requires size { length scores.old ≡ c }
    requires room { EachIndex scores.old (λ x. slice_index scores.old x + 2 * (count * c) < 2 ^ 64) }
    ensures { EachIndex scores.new (λ x. slice_index scores.new x
        ≡ slice_index scores.old x + count * borda_points c row.now x) }
{
    for (i, x) in row.iter().enumerate() {
        award(scores, *x, u64::from(count) * (c as usize - (i + 1)) as u64);
    }
}

/// Gives the candidate so many points.
fn award(scores: &mut [u64], x: Cand, points: u64)
    requires within { x < length scores.old }
    requires room { slice_index scores.old x + points < 2 ^ 64 }
    ensures { EachIndex scores.new (λ y. slice_index scores.new y ≡ slice_index scores.old y + (if x == y then points else 0)) }
{
    scores[x as usize] += points;
}
