// The kinds of a roll, named by its module since a function has the same letters.
ghost use Rattle.std.specs.Prelude.{◌≡◌, ◌≤◌, ◌+◌, ◌<◌, [], length, slice_index_or, OnOk, OnErr};
ghost use Rattle.std.specs.Str.{bytes_eq};
ghost use Rattle.mov_base.specs.Sums.{add_up};
ghost use Rattle.signature_class.specs.Classes.{IsClassList, add_class};
ghost use Rattle.ballot_form.specs.declared.limits.TheConstants.{MOST_BALLOTS};

use ballot_form::{Cand, MOST_BALLOTS};
use indexmap::IndexMap;
use mov_base::Memory;
use std::alloc::Global;
use std::marker::Model;

/// The distinct ballots of a roll, borrowed from it, each with how many there are of it, in the order in which they are
/// first seen.
#[derive(Drop)]
pub struct Kinds<'a> {
    counts: IndexMap<&'a [Cand], u32>,
}

impl<'a> Model for Kinds<'a> {
    ghost use Rattle.std.specs.Prelude.{List, ℕ};
    ghost use Rattle.signature_class.specs.Classes.{AreKinds, seen};

    ghost Value = { List (List ℕ × ℕ) };

    ghost view = { λ k. seen k.counts.entries };

    ghost invariant = { λ k. AreKinds (seen k.counts.entries) };
}

impl<'a> Kinds<'a> {
    /// No kinds.
    pub(crate) fn new(alloc: Global) -> Kinds<'a>
        ensures { result ≡ [] }
    {
        Kinds {
            counts: IndexMap::new(alloc),
        }
    }

    /// Counts so many more of this ballot. A new kind stands last.
    #[tactic(auto, using(crate::proofs::Counts::still_kinds))]
    pub(crate) fn add_times(&mut self, row: &'a [Cand], count: u32) -> Result<(), Memory>
        requires some { 1 ≤ count }
        requires few { add_up (λ k. k.1) self.old + count ≤ MOST_BALLOTS }
        ensures added { OnOk result (self.new ≡ add_class bytes_eq row.now count self.old) }
        ensures unchanged { OnErr result (self.new ≡ self.old) }
    {
        match self.counts.get_mut(row) {
            Some(known) => *known += count,
            None => {
                self.counts.insert(row, count)?;
            }
        }
        Ok(())
    }

    /// How many kinds there are. Their counts add up to no more ballots than a roll has.
    pub fn len(&self) -> usize
        ensures value { result ≡ length self.now }
        ensures classes { IsClassList self.now }
        ensures few { add_up (λ k. k.1) self.now ≤ MOST_BALLOTS }
    {
        self.counts.len()
    }

    /// The ballot of the kind at the place, from 0.
    pub fn row(&self, i: usize) -> &'a [Cand]
        requires { i < length self.now }
        ensures { result.now ≡ (slice_index_or self.now i ([], 0)).0 }
    {
        match self.counts.get_index(i) {
            Some((row, _)) => *row,
            None => unreachable!(),
        }
    }

    /// How many ballots of the kind at the place there are, from 0.
    pub fn count(&self, i: usize) -> u32
        requires { i < length self.now }
        ensures { result ≡ (slice_index_or self.now i ([], 0)).1 }
    {
        match self.counts.get_index(i) {
            Some((_, count)) => *count,
            None => unreachable!(),
        }
    }
}
