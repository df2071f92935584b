// The orders by a choice at the ties.
ghost use Rattle.std.specs.Prelude.{◌≡◌, ◌≤◌, ◌<◌, ◌*◌, ◌^◌, ◌↔◌, Some, None, IfOk, IfSome, EachIndex, IsTrue, length, slice_index};
ghost use Rattle.irv_count.specs.Orders.{held_count, stands, AreHeld, IsOrderBy};
ghost use Rattle.irv_count.specs.Rounds.{count_to, IsBest, IsEarlier, IsOut};

use crate::held::held_counts;
use crate::standing::{all_of, stands_in, without};
use ballot_form::{Cand, MOST_CANDIDATES, Ranking, Roll};
use mov_base::Memory;
use std::alloc::Global;

/// The reported order of elimination: at each tie the higher-numbered goes out. The last one wins.
pub fn count_irv(alloc: Global, roll: &Roll) -> Result<Ranking, Memory>
    ensures { IfOk result (λ order. IsOrderBy None roll.now order) }
{
    order_alone(alloc, roll, None)
}

/// The reported order of elimination. Each round has a row in `held`, with a place for each candidate; what everybody
/// holds in the round is written there.
pub fn count_rounds(alloc: Global, roll: &Roll, held: &mut [u32]) -> Result<Ranking, Memory>
    requires { length held.old ≡ roll.now.c * roll.now.c }
    ensures order { IfOk result (λ order. IsOrderBy None roll.now order) }
    ensures held { IfOk result (λ order. AreHeld roll.now order held.new) }
{
    order_by(alloc, roll, None, held)
}

/// The order of elimination in which `x` goes out whenever it is among the least, and otherwise the higher-numbered of the least.
pub fn order_against(alloc: Global, roll: &Roll, x: Cand) -> Result<Ranking, Memory>
    requires { x < roll.now.c }
    ensures { IfOk result (λ order. IsOrderBy (Some x) roll.now order) }
{
    order_alone(alloc, roll, Some(x))
}

/// The order of elimination by this choice at the ties.
fn order_alone(alloc: Global, roll: &Roll, against: Option<Cand>) -> Result<Ranking, Memory>
    ensures { IfOk result (λ order. IsOrderBy against roll.now order) }
{
    let c = usize::from(roll.candidates());
    let mut held = vec![in alloc; 0u32; c * c]?;
    order_by(alloc, roll, against, held.as_mut_slice())
}

/// The order of elimination by this choice at the ties, and what each candidate holds in each round.
fn order_by(
    alloc: Global,
    roll: &Roll,
    against: Option<Cand>,
    held: &mut [u32],
) -> Result<Ranking, Memory>
    requires { length held.old ≡ roll.now.c * roll.now.c }
    ensures order { IfOk result (λ order. IsOrderBy against roll.now order) }
    ensures held { IfOk result (λ order. AreHeld roll.now order held.new) }
{
    let c = usize::from(roll.candidates());
    let mut order = Ranking::new(alloc);
    let mut standing = all_of(roll.candidates());
    for i in 0..c {
        let out = next_out(roll, standing, &mut held[i * c..i * c + c], against);
        order.push(out)?;
        standing = without(standing, out);
    }
    Ok(order)
}

/// The next to go out of the set. Writes for each candidate how many ballots it holds.
fn next_out(roll: &Roll, standing: u64, counts: &mut [u32], against: Option<Cand>) -> Cand
    requires size { length counts.old ≡ roll.now.c }
    requires few { roll.now.c ≤ MOST_CANDIDATES }
    requires set { standing < 2 ^ roll.now.c }
    requires some { 0 < count_to roll.now.c (stands standing) }
    ensures out { IsOut against (held_count (stands standing) roll.now.ballots) standing roll.now.c result }
    ensures held { EachIndex counts.new (λ x. slice_index counts.new x
        ≡ held_count (stands standing) roll.now.ballots x) }
{
    held_counts(roll, standing, counts);
    let Some(out) = first_of_least(counts, standing, against) else {
        unreachable!();
    };
    out
}

/// The one of the set to go with these counts.
fn first_of_least(counts: &[u32], standing: u64, against: Option<Cand>) -> Option<Cand>
    requires { length counts.now ≤ u8.MAX }
    ensures { IsBest against (λ x. slice_index counts.now x) standing (length counts.now) result }
{
    let mut best: Option<Cand> = None;
    for x in 0..counts.len() as u8 {
        if stands_in(standing, x) {
            best = Some(earlier(counts, best, x, against));
        }
    }
    best
}

/// Which of the best so far and `x`, whose number is higher, goes before the other.
fn earlier(counts: &[u32], best: Option<Cand>, x: Cand, against: Option<Cand>) -> Cand
    requires within { x < length counts.now }
    requires best { IfSome best (λ b. b < x) }
    ensures { IsEarlier against counts.now best x result }
{
    match best {
        None => x,
        Some(b) => {
            let (mine, its) = (counts[x as usize], counts[b as usize]);
            if mine < its || (mine == its && !is_it(against, b)) {
                x
            } else {
                b
            }
        }
    }
}

/// Whether the choice is against `b`.
fn is_it(against: Option<Cand>, b: Cand) -> bool
    ensures { IsTrue result ↔ (against ≡ Some b) }
{
    match against {
        Some(x) => x == b,
        None => false,
    }
}
