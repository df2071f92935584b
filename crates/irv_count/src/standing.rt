// Sets of candidates, whose bit x stands for x.
ghost use Rattle.std.specs.Prelude.{◌≡◌, ◌≤◌, ◌<◌, ◌-◌, ◌^◌, ℕ, false};
ghost use Rattle.irv_count.specs.Orders.{stands};

use ballot_form::{Cand, MOST_CANDIDATES};

/// The set of all candidates below `c`.
pub fn all_of(c: u8) -> u64
    requires { c ≤ MOST_CANDIDATES }
    ensures { result ≡ 2 ^ c - 1 }
{
    (1 << c) - 1
}

/// Whether `x` is in the set.
#[tactic(auto, using(crate::proofs::Bits::stands_below))]
pub fn stands_in(standing: u64, x: Cand) -> bool
    ensures { result ≡ stands standing x }
{
    x < 64 && (standing >> x) & 1 == 1
}

/// The set without `x`.
pub fn without(standing: u64, x: Cand) -> u64
    requires { x < 64 }
    ensures gone { stands result x ≡ false }
    ensures others { (y : ℕ) → y < 64 → (y ≡ x → ⊥) → stands result y ≡ stands standing y }
    ensures fits { result ≤ standing }
{
    standing & !(1 << x)
}
