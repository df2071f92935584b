// The seats that are reported.
ghost use Rattle.std.specs.Prelude.{◌≡◌, ◌≤◌, ◌<◌, ◌*◌, ◌+◌, ◌↔◌, All, EachIndex, IfOk, IsTrue, length, slice_index};
ghost use Rattle.dhondt_seats.specs.Seats.{IsAllocation, reported_seats, seats_in_all};
ghost use Rattle.dhondt_seats.specs.Serving.{IsNext, IsServed};

use ballot_form::{MOST_BALLOTS, MOST_SEATS, SeatList};
use mov_base::Memory;
use std::alloc::Global;

/// The seats of each party, of `s` in all: one for each of its quotients among the `s` highest, where the quotient of the
/// lower-numbered party comes first among equals.
pub fn seats(alloc: Global, votes: &[u64], s: u16) -> Result<SeatList, Memory>
    requires some_party { 1 ≤ length votes.now }
    requires most_parties { length votes.now ≤ u8.MAX }
    requires some_seat { 1 ≤ s }
    requires most_seats { s ≤ MOST_SEATS }
    requires few { All (λ v. v ≤ MOST_BALLOTS) votes.now }
    ensures reported { IfOk result (λ shares. shares ≡ reported_seats votes.now s) }
    ensures admitted { IfOk result (λ shares. IsAllocation votes.now s shares) }
{
    let mut shares = vec![in alloc; 0u16; votes.len()]?;
    serve_all(votes, shares.as_mut_slice(), s);
    Ok(SeatList::from_vec(shares))
}

/// Serves so many seats.
fn serve_all(votes: &[u64], shares: &mut [u16], s: u16)
    requires some { 1 ≤ length votes.now }
    requires parties { length shares.old ≡ length votes.now }
    requires most { s ≤ MOST_SEATS }
    requires none { EachIndex shares.old (λ a. slice_index shares.old a ≡ 0) }
    ensures reported { shares.new ≡ reported_seats votes.now s }
    ensures admitted { IsAllocation votes.now s shares.new }
{
    for _ in 0..s {
        serve(votes, shares);
    }
}

/// Gives one seat more.
fn serve(votes: &[u64], shares: &mut [u16])
    requires some { 1 ≤ length votes.now }
    requires room { seats_in_all shares.old ≤ 499 }
    requires served { IsServed votes.now shares.old }
    ensures served { IsServed votes.now shares.new }
    ensures one { seats_in_all shares.new ≡ seats_in_all shares.old + 1 }
{
    let party = next_party(votes, shares);
    shares[party] += 1;
}

/// The party whose next quotient comes first: it is the highest, and of the lower-numbered party among equals.
pub(crate) fn next_party(votes: &[u64], shares: &[u16]) -> usize
    requires some { 1 ≤ length votes.now }
    requires parties { length shares.now ≡ length votes.now }
    ensures { IsNext votes.now shares.now result }
{
    let mut best = 0;
    for a in 1..votes.len() {
        if is_higher(votes[a], shares[a], votes[best], shares[best]) {
            best = a;
        }
    }
    best
}

/// Whether the next quotient of a party of so many votes and seats is higher than that of another one.
pub(crate) fn is_higher(votes: u64, seats: u16, other_votes: u64, other_seats: u16) -> bool
    ensures { IsTrue result ↔ (other_votes * (seats + 1) < votes * (other_seats + 1)) }
{
    u128::from(votes) * (u128::from(other_seats) + 1)
        > u128::from(other_votes) * (u128::from(seats) + 1)
}
