// First preferences counted.
ghost use Rattle.std.specs.Prelude.{◌≡◌, ◌≤◌, ◌+◌, ◌<◌, ◌^◌, if◌then◌else◌, EachIndex, IfSome, length, slice_index};
ghost use Rattle.ballot_form.specs.Scores.{first_count, is_some_of};

use crate::{Cand, Roll};

/// Writes for each candidate how many ballots put it first. There is a place for each candidate.
#[tactic(auto, using(crate::proofs::FirstCounts::firsts_of_run, crate::proofs::FirstCounts::first_count_le, crate::proofs::FirstCounts::first_below))]
pub fn first_counts(roll: &Roll, counts: &mut [u64])
    requires { length counts.old ≡ roll.now.c }
    ensures counted { EachIndex counts.new (λ x. slice_index counts.new x ≡ first_count roll.now.ballots x) }
    ensures few { EachIndex counts.new (λ x. slice_index counts.new x ≤ length roll.now.ballots) }
{
    counts.fill(0);
    for run in roll.runs() {
        give(counts, run.row.first().copied(), u64::from(run.count));
    }
}

/// Gives so many to the candidate, if there is one.
fn give(counts: &mut [u64], first: Option<Cand>, count: u64)
    requires within { IfSome first (λ x. x < length counts.old) }
    requires room { IfSome first (λ x. slice_index counts.old x + count < 2 ^ 64) }
    ensures { EachIndex counts.new (λ x. slice_index counts.new x ≡ slice_index counts.old x + (if is_some_of first x then count else 0)) }
{
    if let Some(x) = first {
        counts[x as usize] += count;
    }
}
