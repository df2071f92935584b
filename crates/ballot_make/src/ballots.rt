// Drawn ballots.
ghost use Rattle.std.specs.Prelude.{◌≡◌, ◌+◌, ◌*◌, ◌≤◌, length, vec_len, IfOk, OnOk};
ghost use Rattle.std.specs.List.{range_with_len};
ghost use Rattle.ballot_make.specs.Made.{ballot_drawn, candidates_drawn, state_after};

use crate::draws::Draws;
use ballot_form::Cand;
use mov_base::Memory;
use std::alloc::Global;

/// Draws a ballot: its length, and then its candidates.
#[tactic(auto, using(crate::proofs::DrawnLists::ballot_begun))]
pub fn draw_ballot(alloc: Global, c: u8, draws: &mut Draws) -> Result<Vec<Cand>, Memory>
    ensures ballot { IfOk result (λ ballot. ballot.items ≡ ballot_drawn c draws.old.state) }
    ensures state { IfOk result (λ ballot.
        draws.new.state ≡ state_after (2 * length ballot.items + 1) draws.old.state) }
{
    let mut left = all_candidates(alloc, c)?;
    let count = draws.draw(left.len() + 1);
    take_candidates(alloc, count, &mut left, draws)
}

/// All candidates, ascending.
fn all_candidates(alloc: Global, c: u8) -> Result<Vec<Cand>, Memory>
    ensures { IfOk result (λ all. all.items ≡ range_with_len 0 c) }
{
    (0..c).collect(alloc)
}

/// Takes so many of the candidates that are left, each at the lesser of two draws.
#[tactic(auto, using(crate::proofs::DrawnLists::ballot_step, crate::proofs::DrawnLists::state_more))]
fn take_candidates(
    alloc: Global,
    count: usize,
    left: &mut Vec<Cand>,
    draws: &mut Draws,
) -> Result<Vec<Cand>, Memory>
    requires { count ≤ vec_len left.old }
    ensures ballot { IfOk result (λ ballot. ballot.items ≡ candidates_drawn draws.old.state left.old.items count) }
    ensures length { IfOk result (λ ballot. length ballot.items ≡ count) }
    ensures state { OnOk result (draws.new.state ≡ state_after (2 * count) draws.old.state) }
{
    let mut ballot = Vec::with_capacity(alloc, count)?;
    for _taken in 0..count {
        let place = draws.draw_lesser(left.len());
        ballot.push(left.remove(place))?;
    }
    Ok(ballot)
}
