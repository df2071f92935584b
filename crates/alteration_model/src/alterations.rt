// Alterations.
ghost use Rattle.std.specs.Prelude.{◌≡◌, ◌<◌, ◌≤◌, IfOk, Some, length, option_map, slice_get};
ghost use Rattle.ballot_form.specs.Alterations.{IsAlteration};
ghost use Rattle.alteration_model.specs.Faults.{pairs_of};

use crate::Put;
use crate::check::changes_of;
use ballot_form::{Cand, MOST_BALLOTS, Ranking, Roll};
use mov_base::Memory;
use std::alloc::Global;
use std::marker::Model;

/// A list of replacements: the number of a ballot, from 1, and the valid ballot that replaces it. Numbers ascend strictly. Contracts
/// see the list of these pairs.
#[derive(Debug, Drop)]
pub struct Alteration {
    changes: Vec<(u32, Ranking)>,
}

impl Model for Alteration {
    ghost use Rattle.std.specs.Prelude.{List, ℕ, ◌≤◌, length};
    ghost use Rattle.ballot_form.specs.declared.limits.TheConstants.{MOST_BALLOTS};

    ghost Value = { List (ℕ × List ℕ) };

    ghost view = { λ a. a.changes.items };

    ghost invariant = { λ a. length a.changes.items ≤ MOST_BALLOTS };
}

impl Alteration {
    /// The alteration of the roll that these puts are.
    #[tactic(auto, using(crate::proofs::Judged::pairs_distinct, crate::proofs::Judged::few_pairs))]
    pub fn from_puts(alloc: Global, roll: &Roll, puts: &[Put]) -> Result<Alteration, Memory>
        requires { IsAlteration roll.now (pairs_of puts.now) }
        ensures { IfOk result (λ changes. changes ≡ pairs_of puts.now) }
    {
        let _ = roll.len();
        Ok(Alteration::of(changes_of(alloc, puts)?))
    }

    pub(crate) fn of(changes: Vec<(u32, Ranking)>) -> Alteration
        requires { length changes.items ≤ MOST_BALLOTS }
        ensures { result ≡ changes.items }
    {
        Alteration { changes }
    }

    pub(crate) fn as_slice(&self) -> &[(u32, Ranking)]
        ensures { result.now ≡ self.now }
    {
        self.changes.as_slice()
    }

    /// How many replacements there are.
    pub fn len(&self) -> u32
        ensures value { result ≡ length self.now }
        ensures few { result ≤ MOST_BALLOTS }
    {
        self.changes.len() as u32
    }

    /// The number of the ballot that the replacement at the place `i`, from 0, replaces.
    pub fn number(&self, i: u32) -> u32
        requires { i < length self.now }
        ensures { option_map (λ change. change.0) (slice_get self.now i) ≡ Some result }
    {
        self.changes[i as usize].0
    }

    /// Lends the ballot of the replacement at the place `i`, from 0.
    pub fn ballot(&self, i: u32) -> &[Cand]
        requires { i < length self.now }
        ensures { option_map (λ change. change.1) (slice_get self.now i) ≡ Some result.now }
    {
        self.changes[i as usize].1.as_slice()
    }
}
