// Whether seats are an allocation.
ghost use Rattle.std.specs.Prelude.{◌≡◌, ◌↔◌, IsTrue, length};
ghost use Rattle.dhondt_seats.specs.Seats.{IsAllocation, IsFair, seats_in_all};

use crate::serving::{is_higher, next_party};

/// Whether these are `s` seats in all, shared so that no party's last quotient is below another one's next.
pub fn is_allocation(votes: &[u64], shares: &[u16], s: u16) -> bool
    requires { length shares.now ≡ length votes.now }
    ensures { IsTrue result ↔ IsAllocation votes.now s shares.now }
{
    given(shares) == u128::from(s) && is_fair(votes, shares)
}

/// How many seats these are in all.
#[tactic(auto, using(crate::proofs::Counting::sum_more))]
fn given(shares: &[u16]) -> u128
    ensures { result ≡ seats_in_all shares.now }
{
    let mut sum: u128 = 0;
    for share in shares {
        sum += u128::from(*share);
    }
    sum
}

/// Whether no party's last quotient is below the first of all next ones.
fn is_fair(votes: &[u64], shares: &[u16]) -> bool
    requires { length shares.now ≡ length votes.now }
    ensures { IsTrue result ↔ IsFair votes.now shares.now }
{
    if votes.is_empty() {
        return true;
    }
    let next = next_party(votes, shares);
    for a in 0..votes.len() {
        if shares[a] > 0 && is_higher(votes[next], shares[next], votes[a], shares[a] - 1) {
            return false;
        }
    }
    true
}
