// The votes of the parties.
ghost use Rattle.std.specs.Prelude.{◌≡◌, ◌≤◌, All, IfOk, length};
ghost use Rattle.dhondt_seats.specs.Seats.{votes_of};

use ballot_form::{MOST_BALLOTS, Roll, ScoreList, first_counts};
use mov_base::Memory;
use std::alloc::Global;

/// For each party, how many ballots put it first.
pub fn party_votes(alloc: Global, roll: &Roll) -> Result<ScoreList, Memory>
    ensures votes { IfOk result (λ votes. votes ≡ votes_of roll.now) }
    ensures parties { IfOk result (λ votes. length votes ≡ roll.now.c) }
    ensures few { IfOk result (λ votes. All (λ v. v ≤ MOST_BALLOTS) votes) }
{
    let mut votes = vec![in alloc; 0u64; roll.candidates() as usize]?;
    set_votes(roll, votes.as_mut_slice());
    Ok(ScoreList::from_vec(votes))
}

/// Writes for each party how many ballots put it first.
#[tactic(auto, using(crate::proofs::PartyVotes::are_votes, crate::proofs::PartyVotes::all_few))]
fn set_votes(roll: &Roll, votes: &mut [u64])
    requires { length votes.old ≡ roll.now.c }
    ensures votes { votes.new ≡ votes_of roll.now }
    ensures few { All (λ v. v ≤ MOST_BALLOTS) votes.new }
{
    let _ = roll.len();
    first_counts(roll, votes);
}
