// The places of a suffix that a ballot keeps.
ghost use Rattle.std.specs.Prelude.{◌≡◌, ◌≤◌, length};
ghost use Rattle.signature_class.specs.Signatures.{ArePlaces, kept_from, place_in as place_of, signature_of};
ghost use Rattle.signature_class.specs.declared.limits.TheConstants.{MOST_PLACES};

use ballot_form::Cand;
use smallvec::SmallVec;
use std::alloc::Global;
use std::marker::Model;

/// Places of a suffix, from 1. No list of at most 40 takes memory.
pub type Places = SmallVec<u8, 40>;

/// The signature of the ballot under a suffix of at most 40 candidates, the first of whom goes out first: the places,
/// from 1, of the candidates who hold the ballot in turn, strictly ascending. It takes no memory.
pub fn signature(alloc: Global, row: &[Cand], suffix: &[Cand]) -> Places
    requires { length suffix.now ≤ MOST_PLACES }
    ensures value { result.items ≡ signature_of suffix.now row.now }
    ensures places { ArePlaces (length suffix.now) result.items }
{
    let mut places = Places::new(alloc);
    for place in Kept::of(row, suffix) {
        places.push_reserved(place);
    }
    places
}

/// The places that a ballot keeps, one after another: each that is greater than all before it.
#[derive(Drop)]
pub(crate) struct Kept<'a> {
    suffix: &'a [Cand],
    rest: &'a [Cand],
    last: u8,
}

impl<'a> Model for Kept<'a> {
    ghost use Rattle.std.specs.Prelude.{List, ℕ, ◌≤◌, length};
    ghost use Rattle.signature_class.specs.Signatures.{kept_from};
    ghost use Rattle.signature_class.specs.declared.limits.TheConstants.{MOST_PLACES};

    ghost Value = { List ℕ };

    ghost view = { λ k. kept_from k.suffix.now k.last k.rest.now };

    ghost invariant = { λ k. length k.suffix.now ≤ MOST_PLACES };
}

impl<'a> Kept<'a> {
    /// All places that the ballot keeps.
    pub(crate) fn of(row: &'a [Cand], suffix: &'a [Cand]) -> Kept<'a>
        requires { length suffix.now ≤ MOST_PLACES }
        ensures { result ≡ signature_of suffix.now row.now }
    {
        Kept {
            suffix,
            rest: row,
            last: 0,
        }
    }
}

impl<'a> Iterator for Kept<'a> {
    ghost use Rattle.std.specs.Iterator.{YieldsFirst, item_count};

    type Item = u8;

    ghost next_gives = { YieldsFirst (λ s. s) };

    ghost remaining = { item_count (λ s. s) };

    fn next(&mut self) -> Option<u8> {
        while let Some((x, later)) = self.rest.split_first() {
            self.rest = later;
            let place = place_in(self.suffix, *x);
            if place > self.last {
                self.last = place;
                return Some(place);
            }
        }
        None
    }
}

/// The place of the candidate in the suffix, from 1, or 0 where it isn't there.
fn place_in(suffix: &[Cand], x: Cand) -> u8
    requires { length suffix.now ≤ MOST_PLACES }
    ensures { result ≡ place_of suffix.now x }
{
    for (i, y) in suffix.iter().enumerate() {
        if *y == x {
            return i as u8 + 1;
        }
    }
    0
}
