// Who has the greatest score.
ghost use Rattle.std.specs.Prelude.{◌≡◌, ◌<◌, ◌≤◌, length, slice_index};
ghost use Rattle.score_count.specs.Winners.{IsScoreWinner};

use ballot_form::Cand;

/// The lower-numbered of the candidates with the greatest score. There are 1 to 255 scores.
pub fn score_winner(scores: &[u64]) -> Cand
    requires some { 1 ≤ length scores.now }
    requires most { length scores.now ≤ u8.MAX }
    ensures { IsScoreWinner scores.now result }
{
    let mut best: u8 = 0;
    for i in 1..scores.len() {
        best = better(scores, best, i);
    }
    best
}

/// The second place, where its score is greater, and else the first.
fn better(scores: &[u64], best: u8, i: usize) -> u8
    requires best { best < length scores.now }
    requires other { i < length scores.now }
    requires few { i < 256 }
    ensures greater { slice_index scores.now best < slice_index scores.now i → result ≡ i }
    ensures else_best { slice_index scores.now i ≤ slice_index scores.now best → result ≡ best }
{
    if scores[i] > scores[best as usize] {
        i as u8
    } else {
        best
    }
}
