// Who holds how many ballots.
ghost use Rattle.std.specs.Prelude.{◌≡◌, ◌+◌, ◌<◌, ◌^◌, if◌then◌else◌, false, Contains, EachIndex, IfSome, length, slice_index};
ghost use Rattle.ballot_form.specs.Scores.{is_some_of};
ghost use Rattle.irv_count.specs.Orders.{held_count, holder, stands};

use crate::standing::stands_in;
use ballot_form::{Cand, Roll};

/// Writes for each candidate how many ballots it holds: those on which it is the first of the set. One that isn't in the set
/// holds none.
#[tactic(auto, using(crate::proofs::Holders::held_of_run, crate::proofs::Holders::held_le))]
pub fn held_counts(roll: &Roll, standing: u64, counts: &mut [u32])
    requires size { length counts.old ≡ roll.now.c }
    requires set { standing < 2 ^ roll.now.c }
    ensures held { EachIndex counts.new (λ x. slice_index counts.new x ≡ held_count (stands standing) roll.now.ballots x) }
    ensures others { EachIndex counts.new (λ x. stands standing x ≡ false → slice_index counts.new x ≡ 0) }
{
    counts.fill(0);
    for run in roll.runs() {
        give(counts, holder_of(run.row, standing), run.count);
    }
}

/// The first candidate on the ballot that is in the set.
fn holder_of(row: &[Cand], standing: u64) -> Option<Cand>
    ensures value { result ≡ holder (stands standing) row.now }
    ensures on_it { IfSome result (λ x. Contains row.now x) }
{
    row.iter().copied().find(|x| stands_in(standing, *x))
}

/// Counts so many ballots more for their holder, if they have one.
fn give(counts: &mut [u32], holder: Option<Cand>, count: u32)
    requires within { IfSome holder (λ x. x < length counts.old) }
    requires room { IfSome holder (λ x. slice_index counts.old x + count < 2 ^ 32) }
    ensures { EachIndex counts.new (λ x. slice_index counts.new x
        ≡ slice_index counts.old x + (if is_some_of holder x then count else 0)) }
{
    if let Some(x) = holder {
        counts[x as usize] += count;
    }
}
