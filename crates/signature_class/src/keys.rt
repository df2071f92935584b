// Keys of ballots: numbers below 2^40 that stand for sets.
ghost use Rattle.std.specs.Prelude.{◌≡◌, ◌≤◌, ◌<◌, ◌+◌, ◌==◌, ◌||◌, ℕ, Bool, All, length};
ghost use Rattle.irv_count.specs.Orders.{member, stands};
ghost use Rattle.signature_class.specs.Signatures.{bits_of, places_key};
ghost use Rattle.signature_class.specs.Signatures.{cover_key as key_under_cover, suffix_key as key_under_suffix};
ghost use Rattle.signature_class.specs.declared.limits.TheConstants.{MOST_PLACES};

use crate::limits::MOST_PLACES;
use crate::places::Kept;
use ballot_form::Cand;

/// The key of a list of places, each from 1 to 40: bit p - 1 for each place p.
pub fn signature_key(places: &[u8]) -> u64
    requires { All (λ p. (1 ≤ p) × (p ≤ MOST_PLACES)) places.now }
    ensures key { result ≡ places_key places.now }
    ensures bits { (k : ℕ) → k < MOST_PLACES → stands result k ≡ member (k + 1) places.now }
{
    let mut key = 0;
    for place in places {
        key = with_bit(key, *place - 1);
    }
    key
}

/// The key of a ballot under a suffix of at most 40 candidates: that of its signature. It takes no memory.
pub fn suffix_key(row: &[Cand], suffix: &[Cand]) -> u64
    requires { length suffix.now ≤ MOST_PLACES }
    ensures { result ≡ key_under_suffix suffix.now row.now }
{
    let mut key = 0;
    for place in Kept::of(row, suffix) {
        key = with_bit(key, place - 1);
    }
    key
}

/// The key of a ballot under the cover of `x`: bit y for each candidate y before `x`, and for `x` itself where it is
/// ranked. Where it isn't, these are all candidates on the ballot. Only candidates below 40 have a bit.
pub fn cover_key(row: &[Cand], x: Cand) -> u64
    ensures { result ≡ key_under_cover x row.now }
{
    let mut key = 0;
    for y in row {
        key = with_bit(key, *y);
        if *y == x {
            return key;
        }
    }
    key
}

/// The key with this bit set as well, if it is one of the first 40.
fn with_bit(key: u64, k: u8) -> u64
    ensures { (set : ℕ → Bool) → key ≡ bits_of MOST_PLACES set → result ≡ bits_of MOST_PLACES (λ y. set y || (y == k)) }
{
    if k < MOST_PLACES { key | 1 << k } else { key }
}
