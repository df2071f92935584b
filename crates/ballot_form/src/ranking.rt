// Lists of distinct candidates.
ghost use Rattle.std.specs.Prelude.{◌≡◌, ◌++◌, [], ◌∷◌, length, Contains, IfOk, OnOk, OnErr};
ghost use Rattle.ballot_form.specs.Ballots.{AreDistinct};

use crate::Cand;
use mov_base::{Copies, Memory};
use std::alloc::Global;
use std::marker::Model;

/// A list of distinct candidates, most preferred first.
#[derive(Debug, Drop)]
pub struct Ranking {
    items: Vec<Cand>,
}

impl Model for Ranking {
    ghost use Rattle.std.specs.Prelude.{List, ℕ};
    ghost use Rattle.ballot_form.specs.Ballots.{AreDistinct};

    ghost Value = { List ℕ };

    ghost view = { λ r. r.items.items };

    ghost invariant = { λ r. AreDistinct r.items.items };
}

impl Ranking {
    /// The blank ranking. It takes no memory.
    pub fn new(alloc: Global) -> Ranking
        ensures { result ≡ [] }
    {
        Ranking {
            items: Vec::new(alloc),
        }
    }

    /// The ranking of these candidates.
    pub fn from_slice(alloc: Global, row: &[Cand]) -> Result<Ranking, Memory>
        requires { AreDistinct row.now }
        ensures { IfOk result (λ ranking. ranking ≡ row.now) }
    {
        let items = Vec::from_slice(alloc, row)?;
        Ok(Ranking { items })
    }

    /// Adds a candidate at the end.
    pub fn push(&mut self, candidate: Cand) -> Result<(), Memory>
        requires { Contains self.old candidate → ⊥ }
        ensures ok { OnOk result (self.new ≡ self.old ++ candidate ∷ []) }
        ensures err { OnErr result (self.new ≡ self.old) }
    {
        self.items.push(candidate)?;
        Ok(())
    }

    /// Takes all candidates off, and keeps the memory.
    pub fn clear(&mut self)
        ensures { self.new ≡ [] }
    {
        self.items.clear();
    }

    /// Lends the candidates, in order.
    pub fn as_slice(&self) -> &[Cand]
        ensures value { result.now ≡ self.now }
        ensures distinct { AreDistinct self.now }
    {
        self.items.as_slice()
    }

    /// How many candidates are ranked.
    pub fn len(&self) -> usize
        ensures { result ≡ length self.now }
    {
        self.items.len()
    }

    /// An equal ranking.
    pub fn copy(&self) -> Result<Ranking, Memory>
        ensures { IfOk result (λ copy. copy ≡ self.now) }
    {
        let alloc = *self.items.allocator();
        let items = Vec::from_slice(alloc, self.items.as_slice())?;
        Ok(Ranking { items })
    }
}

impl Copies for Ranking {
    fn copied(&self, _alloc: Global) -> Result<Ranking, Memory> {
        self.copy()
    }
}
