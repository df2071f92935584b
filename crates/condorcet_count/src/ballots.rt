// Counting ballots pair by pair.
ghost use Rattle.std.specs.Prelude.{◌≡◌, ◌<◌, ◌+◌, ◌*◌, ◌^◌, ◌==◌, ◌&&◌, if◌then◌else◌, ℕ, EachIndex, length, slice_index};
ghost use Rattle.ballot_form.specs.Ballots.{IsValidBallot};
ghost use Rattle.condorcet_count.specs.Preferences.{count_at};
ghost use Rattle.condorcet_count.specs.Behind.{behind_count, is_behind, is_on};

use ballot_form::{Cand, Roll};

/// Writes for each two candidates on how many ballots the first stands, and the second no later. For a candidate and itself this
/// is how many ballots rank it.
#[tactic(auto, using(crate::proofs::Counted::behind_of_run, crate::proofs::Counted::behind_le))]
pub(crate) fn count_ballots(roll: &Roll, counts: &mut [u32])
    requires square { length counts.old ≡ roll.now.c * roll.now.c }
    requires none { EachIndex counts.old (λ k. slice_index counts.old k ≡ 0) }
    ensures { (x y : ℕ) → x < roll.now.c → y < roll.now.c → count_at roll.now.c counts.new x y ≡ behind_count roll.now.ballots x y }
{
    let c = roll.candidates();
    for run in roll.runs() {
        count_ballot(c, counts, run.row, run.count);
    }
}

/// Counts so many equal ballots.
#[tactic(auto, using(crate::proofs::Places::behind_more))]
fn count_ballot(c: u8, counts: &mut [u32], row: &[Cand], times: u32)
    requires valid { IsValidBallot c row.now }
    requires square { length counts.old ≡ c * c }
    requires room { (x y : ℕ) → x < c → y < c → count_at c counts.old x y + 3 * times < 2 ^ 32 }
    ensures { (x y : ℕ) → x < c → y < c
        → count_at c counts.new x y ≡ count_at c counts.old x y + (if is_behind row.now x y then times else 0) }
{
    for (i, x) in row.iter().enumerate() {
        count_place(c, counts, *x, &row[..i + 1], times);
    }
}

/// Counts a place of so many equal ballots: who stands there stands behind each one up to it.
#[tactic(auto, using(crate::proofs::Places::on_more))]
fn count_place(c: u8, counts: &mut [u32], last: Cand, upto: &[Cand], times: u32)
    requires candidate { last < c }
    requires valid { IsValidBallot c upto.now }
    requires square { length counts.old ≡ c * c }
    requires room { (x y : ℕ) → x < c → y < c → count_at c counts.old x y + 2 * times < 2 ^ 32 }
    ensures { (x y : ℕ) → x < c → y < c
        → count_at c counts.new x y
        ≡ count_at c counts.old x y + (if (last == x) && is_on upto.now y then times else 0) }
{
    for other in upto {
        count_pair(c, counts, last, *other, times);
    }
}

/// Adds so many to the count of two candidates.
fn count_pair(c: u8, counts: &mut [u32], first: Cand, second: Cand, times: u32)
    requires first { first < c }
    requires second { second < c }
    requires square { length counts.old ≡ c * c }
    requires room { count_at c counts.old first second + times < 2 ^ 32 }
    ensures { (x y : ℕ) → x < c → y < c
        → count_at c counts.new x y ≡ count_at c counts.old x y + (if (first == x) && (second == y) then times else 0) }
{
    counts[first as usize * c as usize + second as usize] += times;
}
