// Classes by numbered keys.
ghost use Rattle.std.specs.Prelude.{◌≡◌, ◌≤◌, ◌+◌, ◌<◌, [], length, slice_index_or, OnOk, OnErr, nat_eq};
ghost use Rattle.signature_class.specs.Classes.{IsClassList, add_class, count_of};

use ballot_form::MOST_BALLOTS;
use indexmap::IndexMap;
use mov_base::Memory;
use std::alloc::Global;
use std::marker::Model;

/// Keys, each with how many ballots have it, in the order in which they came.
#[derive(Drop)]
pub struct Classes {
    counts: IndexMap<u64, u32>,
}

impl Model for Classes {
    ghost use Rattle.std.specs.Prelude.{List, ℕ};
    ghost use Rattle.signature_class.specs.Classes.{IsClassList};

    ghost Value = { List (ℕ × ℕ) };

    ghost view = { λ c. c.counts.entries };

    ghost invariant = { λ c. IsClassList c.counts.entries };
}

impl Classes {
    /// No classes. It takes no memory.
    pub fn new(alloc: Global) -> Classes
        ensures { result ≡ [] }
    {
        Classes {
            counts: IndexMap::new(alloc),
        }
    }

    /// Counts so many more ballots of this key. A new key stands last.
    #[tactic(auto, using(crate::proofs::Counts::still_classes))]
    pub fn add(&mut self, key: u64, count: u32) -> Result<(), Memory>
        requires some { 1 ≤ count }
        requires few { count_of nat_eq key self.old + count ≤ MOST_BALLOTS }
        ensures added { OnOk result (self.new ≡ add_class nat_eq key count self.old) }
        ensures unchanged { OnErr result (self.new ≡ self.old) }
    {
        match self.counts.get_mut(&key) {
            Some(known) => *known += count,
            None => {
                self.counts.insert(key, count)?;
            }
        }
        Ok(())
    }

    /// How many classes there are.
    pub fn len(&self) -> usize
        ensures value { result ≡ length self.now }
        ensures classes { IsClassList self.now }
    {
        self.counts.len()
    }

    /// The key of the class at the place, from 0.
    pub fn key(&self, i: usize) -> u64
        requires { i < length self.now }
        ensures { result ≡ (slice_index_or self.now i (0, 0)).0 }
    {
        match self.counts.get_index(i) {
            Some((key, _)) => *key,
            None => unreachable!(),
        }
    }

    /// How many ballots the class at the place has, from 0.
    pub fn count(&self, i: usize) -> u32
        requires { i < length self.now }
        ensures { result ≡ (slice_index_or self.now i (0, 0)).1 }
    {
        match self.counts.get_index(i) {
            Some((_, count)) => *count,
            None => unreachable!(),
        }
    }
}
