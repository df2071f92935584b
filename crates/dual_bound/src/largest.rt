// The cut test over classes of gains.
ghost use Rattle.std.specs.Prelude.{◌≡◌, ℕ, ◌+◌, ◌*◌, ◌≤◌, ◌<◌, ◌^◌, ◌↔◌, IsTrue, List, IsPermutation};
ghost use Rattle.mov_base.specs.Sums.{add_up, most};
ghost use Rattle.signature_class.specs.Classes.{IsGrouped};
ghost use Rattle.dual_bound.specs.Largest.{greedy, AreSmall, CutsAt, IsDescending, IsGreatestCut, IsSmallBase};

use ballot_form::MOST_BALLOTS;
use std::cmp::Reverse;

/// Puts the classes with the greatest gains first.
pub(crate) fn sort_classes(classes: &mut [(u128, u32)])
    ensures order { IsDescending classes.new }
    ensures same { IsPermutation classes.old classes.new }
{
    classes.sort_unstable_by_key(|p| Reverse(p.0));
}

/// What the first `k` gains give.
fn greedy_sum(classes: &[(u128, u32)], k: u32) -> u128
    requires small { AreSmall classes.now }
    ensures value { result ≡ greedy k classes.now }
    ensures high { result ≤ k * 2 ^ 88 }
{
    let mut total: u128 = 0;
    let mut left = k;
    for p in classes {
        let taken = left.min(p.1);
        total += u128::from(taken) * p.0;
        left -= taken;
    }
    total
}

/// The sum of the `k` largest gains.
fn top_sum(classes: &[(u128, u32)], k: u32) -> u128
    requires small { AreSmall classes.now }
    requires order { IsDescending classes.now }
    requires enough { k ≤ add_up (λ p. p.1) classes.now }
    ensures value { (gains : List ℕ) → IsGrouped gains classes.now → result ≡ most k gains }
    ensures high { result ≤ k * 2 ^ 88 }
{
    greedy_sum(classes, k)
}

/// Whether the test passes at `t`.
pub(crate) fn cuts_at(base: i128, classes: &[(u128, u32)], t: u32) -> bool
    requires small { AreSmall classes.now }
    requires order { IsDescending classes.now }
    requires enough { t ≤ add_up (λ p. p.1) classes.now + 1 }
    requires base { IsSmallBase base }
    ensures value { (gains : List ℕ) → IsGrouped gains classes.now → (IsTrue result ↔ CutsAt base gains t) }
{
    if t == 0 {
        return true;
    }
    let top = top_sum(classes, t - 1);
    base + (top as i128) < 0
}

/// The greatest number at which the test passes.
pub(crate) fn greatest_cut(base: i128, classes: &[(u128, u32)], ballots: u32) -> u32
    requires small { AreSmall classes.now }
    requires order { IsDescending classes.now }
    requires ballots { ballots ≡ add_up (λ p. p.1) classes.now }
    requires few { ballots ≤ MOST_BALLOTS }
    requires base { IsSmallBase base }
    ensures value { (gains : List ℕ) → IsGrouped gains classes.now → IsGreatestCut base gains (ballots + 1) result }
{
    let mut low = 0;
    let mut high = ballots + 2;
    while high - low > 1 {
        let middle = low + (high - low) / 2;
        if cuts_at(base, classes, middle) {
            low = middle;
        } else {
            high = middle;
        }
    }
    low
}
