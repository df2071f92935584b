// Who is chosen in all its pairs.
ghost use Rattle.std.specs.Prelude.{◌≡◌, ◌≢◌, ◌↔◌, ◌<◌, ℕ, IsNone, IsTrue};
ghost use Rattle.ballot_form.specs.Ballots.{Poll};
ghost use Rattle.condorcet_count.specs.Preferences.{ArePrefs, count_in, pref_of};
ghost use Rattle.condorcet_count.specs.Settlings.{Chooses, IsAdmittedOutcome, IsChosenInAll, IsReportedOutcome, ties_to_lower};

use crate::Matrix;
use ballot_form::Cand;

/// The candidate that is chosen in all its pairs, where each tied pair goes to the lower number.
#[tactic(auto, using(crate::proofs::Choices::admitted, crate::proofs::Choices::of_roll, crate::proofs::Choices::admitted_of_roll))]
pub fn condorcet_outcome(matrix: &Matrix) -> Option<Cand>
    ensures reported { IsReportedOutcome matrix.now.c (count_in matrix.now) result }
    ensures none { IsNone result ↔ ((x : ℕ) → IsChosenInAll matrix.now.c (ties_to_lower (count_in matrix.now)) x → ⊥) }
    ensures admitted { IsAdmittedOutcome matrix.now.c (count_in matrix.now) result }
    // The same of each roll that has these counts.
    ensures reported_of_roll { (p : Poll) → ArePrefs p matrix.now → IsReportedOutcome p.c (pref_of p.ballots) result }
    ensures admitted_of_roll { (p : Poll) → ArePrefs p matrix.now → IsAdmittedOutcome p.c (pref_of p.ballots) result }
{
    chosen_in_all(matrix)
}

/// The candidate that is chosen in all its pairs, where there is one.
fn chosen_in_all(matrix: &Matrix) -> Option<Cand>
    ensures { IsReportedOutcome matrix.now.c (count_in matrix.now) result }
{
    for x in 0..matrix.candidates() {
        if is_chosen_in_all(matrix, x) {
            return Some(x);
        }
    }
    None
}

/// Whether the candidate is chosen in all its pairs.
fn is_chosen_in_all(matrix: &Matrix, x: Cand) -> bool
    requires { x < matrix.now.c }
    ensures { IsTrue result ↔ IsChosenInAll matrix.now.c (ties_to_lower (count_in matrix.now)) x }
{
    for y in 0..matrix.candidates() {
        if y != x && !is_chosen(matrix, x, y) {
            return false;
        }
    }
    true
}

/// Whether `x` is chosen against `y`: more ballots prefer it, or as many and its number is lower.
fn is_chosen(matrix: &Matrix, x: Cand, y: Cand) -> bool
    requires first { x < matrix.now.c }
    requires second { y < matrix.now.c }
    requires other { y ≢ x }
    ensures { IsTrue result ↔ Chooses (ties_to_lower (count_in matrix.now)) x y }
{
    let ours = matrix.pref(x, y);
    let theirs = matrix.pref(y, x);
    ours > theirs || (ours == theirs && x < y)
}
