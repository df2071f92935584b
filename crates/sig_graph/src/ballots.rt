// The ballot of a path.
ghost use Rattle.std.specs.Prelude.{◌≡◌, ℕ, ◌<◌, All, IfOk, length};
ghost use Rattle.ballot_form.specs.Ballots.{AreDistinct, IsValidBallot};
ghost use Rattle.signature_class.specs.Signatures.{signature_of};
ghost use Rattle.sig_graph.specs.Paths.{IsPath, ballot_of};

use ballot_form::{Cand, Ranking};
use mov_base::Memory;
use std::alloc::Global;

/// The ballot that ranks the candidates of a suffix at the places of a path, in turn. Its signature is the path.
pub fn path_ballot(alloc: Global, path: &[u8], suffix: &[Cand]) -> Result<Ranking, Memory>
    requires path { IsPath (length suffix.now) path.now }
    requires distinct { AreDistinct suffix.now }
    ensures ballot { IfOk result (λ ballot. ballot ≡ ballot_of suffix.now path.now) }
    ensures signature { IfOk result (λ ballot. signature_of suffix.now ballot ≡ path.now) }
    ensures valid { (c : ℕ) → All (λ x. x < c) suffix.now → IfOk result (IsValidBallot c) }
{
    let mut ballot = Ranking::new(alloc);
    for place in path {
        ballot.push(suffix[usize::from(*place) - 1])?;
    }
    Ok(ballot)
}
