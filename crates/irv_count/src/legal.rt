// Whether an order is legal.
ghost use Rattle.std.specs.Prelude.{◌≡◌, ◌≤◌, ◌<◌, ◌^◌, ◌↔◌, IsTrue, length, slice_index};
ghost use Rattle.irv_count.specs.Orders.{held_count, stands, IsOrder, IsLegalOrder};
ghost use Rattle.irv_count.specs.Rounds.{IsLeast};

use crate::held::held_counts;
use crate::standing::{all_of, stands_in, without};
use ballot_form::{Cand, MOST_CANDIDATES, Roll, valid_row};

/// Whether the list has each of `c` candidates once.
#[tactic(auto, using(crate::proofs::Whole::order_from_valid, crate::proofs::Whole::valid_order))]
pub fn is_order(order: &[Cand], c: u8) -> bool
    ensures { IsTrue result ↔ IsOrder c order.now }
{
    order.len() == usize::from(c) && valid_row(order, c)
}

/// Whether the order of all candidates is legal: at each place goes one who holds no more ballots than any other of those left.
/// `counts` has a place for each candidate, and what is written there means nothing.
pub fn legal_order(roll: &Roll, order: &[Cand], counts: &mut [u32]) -> bool
    requires order { IsOrder roll.now.c order.now }
    requires size { length counts.old ≡ roll.now.c }
    ensures { IsTrue result ↔ IsLegalOrder roll.now order.now }
{
    let mut standing = all_of(roll.candidates());
    for i in 0..order.len() {
        if !is_least_held(roll, standing, counts, order[i]) {
            return false;
        }
        standing = without(standing, order[i]);
    }
    true
}

/// Whether no one of the set holds fewer ballots.
fn is_least_held(roll: &Roll, standing: u64, counts: &mut [u32], out: Cand) -> bool
    requires size { length counts.old ≡ roll.now.c }
    requires few { roll.now.c ≤ MOST_CANDIDATES }
    requires set { standing < 2 ^ roll.now.c }
    requires below { out < roll.now.c }
    ensures { IsTrue result ↔ IsLeast (held_count (stands standing) roll.now.ballots) standing roll.now.c out }
{
    held_counts(roll, standing, counts);
    is_least(counts, standing, out)
}

/// Whether no one of the set has a smaller count.
fn is_least(counts: &[u32], standing: u64, out: Cand) -> bool
    requires few { length counts.now ≤ u8.MAX }
    requires below { out < length counts.now }
    ensures { IsTrue result ↔ IsLeast (λ x. slice_index counts.now x) standing (length counts.now) out }
{
    for y in 0..counts.len() as u8 {
        if stands_in(standing, y) && counts[y as usize] < counts[out as usize] {
            return false;
        }
    }
    true
}
