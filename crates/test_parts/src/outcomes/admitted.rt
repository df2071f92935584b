// Whether an outcome is admitted.
use super::orders::some_order;
use super::settlings::some_settling;
use ballot_form::{Cand, Outcome, Roll, Rule};
use condorcet_count::pairs;
use dhondt_seats::{is_allocation, party_votes};
use mov_base::Memory;
use score_count::{borda, plurality};
use std::alloc::Global;

/// Whether some choice at the ties gives this outcome. There are at most 4 candidates.
pub(crate) fn admits(
    alloc: Global,
    rule: Rule,
    roll: &Roll,
    outcome: &Outcome,
) -> Result<bool, Memory> {
    match (rule, outcome) {
        (Rule::Plurality, Outcome::Winner(x)) => {
            Ok(is_greatest(plurality(alloc, roll)?.as_slice(), *x))
        }
        (Rule::Borda, Outcome::Winner(x)) => Ok(is_greatest(borda(alloc, roll)?.as_slice(), *x)),
        (Rule::Condorcet, Outcome::Winner(x)) => Ok(some_settling(&pairs(alloc, roll)?, Some(*x))),
        (Rule::Condorcet, Outcome::NoWinner) => Ok(some_settling(&pairs(alloc, roll)?, None)),
        (Rule::Dhondt(s), Outcome::Seats(shares)) => by_seats(alloc, s, roll, shares.as_slice()),
        (Rule::Irv, Outcome::Winner(x)) => some_order(alloc, roll, *x),
        _ => Ok(false),
    }
}

/// Whether no score is greater than that of the candidate.
fn is_greatest(scores: &[u64], x: Cand) -> bool {
    match scores.get(usize::from(x)) {
        Some(score) => scores.iter().all(|other| *other <= *score),
        None => false,
    }
}

/// Whether the seats are an allocation.
fn by_seats(alloc: Global, s: u16, roll: &Roll, shares: &[u16]) -> Result<bool, Memory> {
    let votes = party_votes(alloc, roll)?;
    let votes = votes.as_slice();
    Ok(votes.len() == shares.len() && is_allocation(votes, shares, s))
}
