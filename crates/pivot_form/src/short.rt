// Forms kept by slots and pairs.
ghost use Rattle.std.specs.Prelude.{◌≡◌, ◌≢◌, ◌<◌, ◌+◌, ℕ, pos, length, slice_index, unsigned_abs, IfSome, Some};
ghost use Rattle.pivot_form.specs.Kept.{cell, entry_of, kept_entry, pair_of, place_of, right_of, variables_of, IsStore};
ghost use Rattle.pivot_form.specs.Shorts.{IsBasic, IsShort, store_of};
ghost use Rattle.pivot_form.specs.declared.places.Place.TheVariants.{Kept, Paired};

use crate::places::{Pair, Place};
use exact_num::{WIDE, cross};

/// A form without what says nothing: for each slot the entries of the columns, the basic entry and the right side of an
/// equation that is no pair's.
#[derive(Debug, Drop)]
pub(crate) struct Short {
    /// How many columns there are.
    pub(crate) width: usize,
    /// The basic variable of each equation.
    pub(crate) basics: Vec<usize>,
    /// Where each variable stands.
    pub(crate) places: Vec<Place>,
    /// The pair of each variable, if it is one of two.
    pub(crate) pairs: Vec<Option<Pair>>,
    /// What the slots keep.
    pub(crate) rows: Vec<Vec<i64>>,
}

impl Short {
    /// How many equations the form has.
    pub(crate) fn row_count(&self) -> usize
        ensures { result ≡ length (store_of self.now).basis }
    {
        self.basics.len()
    }

    /// The basic variable of the equation in the row.
    pub(crate) fn basic(&self, row: usize) -> usize
        requires { row < length (store_of self.now).basis }
        ensures { result ≡ slice_index (store_of self.now).basis row }
    {
        self.basics[row]
    }

    /// What the slot keeps at this place: the entry of a column, the basic entry, or the right side.
    #[tactic(auto, using(crate::proofs::Shorts::cell_small))]
    pub(crate) fn cell(&self, slot: usize, place: usize) -> i64
        requires short { IsShort (store_of self.now) }
        requires slot { slot < length (store_of self.now).rows }
        requires place { place < self.now.width + 2 }
        ensures value { result ≡ cell (store_of self.now) slot place }
        ensures small { unsigned_abs result < WIDE }
    {
        self.rows[slot][place]
    }

    /// The entry of the variable in the equation that the slot keeps.
    #[tactic(auto, using(crate::proofs::Shorts::column_inside))]
    pub(crate) fn kept_entry(&self, slot: usize, variable: usize) -> i64
        requires short { IsShort (store_of self.now) }
        requires slot { slot < length (store_of self.now).rows }
        requires variable { variable < variables_of (store_of self.now) }
        ensures value { result ≡ kept_entry (store_of self.now) slot variable }
        ensures small { unsigned_abs result < WIDE }
    {
        match self.places[variable] {
            Place::Column(column) => self.cell(slot, column),
            Place::Kept(own) if own == slot => self.cell(slot, self.width),
            _ => 0,
        }
    }

    /// The pair of a basic variable whose equation isn't kept.
    pub(crate) fn pair(&self, basic: usize) -> Pair
        requires short { IsShort (store_of self.now) }
        requires within { basic < variables_of (store_of self.now) }
        requires paired { place_of (store_of self.now) basic ≡ Paired }
        ensures { pair_of (store_of self.now) basic ≡ Some result }
    {
        match self.pairs[basic] {
            Some(pair) => pair,
            None => unreachable!(),
        }
    }

    /// The entry of the variable in the equation of a basic variable, where that of its pair's other variable is kept in
    /// this slot.
    #[tactic(auto, using(crate::proofs::Shorts::slot_within))]
    pub(crate) fn mirror_entry(&self, slot: usize, basic: usize, pair: Pair, variable: usize) -> i64
        requires short { IsShort (store_of self.now) }
        requires basic { IsBasic (store_of self.now) basic }
        requires paired { place_of (store_of self.now) basic ≡ Paired }
        requires pair { pair_of (store_of self.now) basic ≡ Some pair }
        requires other { place_of (store_of self.now) pair.other ≡ Kept slot }
        requires variable { variable < variables_of (store_of self.now) }
        ensures { result ≡ entry_of (store_of self.now) basic variable }
    {
        let kept = self.kept_entry(slot, variable);
        if variable == basic || variable == pair.other {
            self.cell(slot, self.width) - kept
        } else {
            -kept
        }
    }

    /// The other variable of a basic variable's equation, where it is that of its pair.
    pub(crate) fn lone(&self, basic: usize) -> Option<usize>
        requires short { IsShort (store_of self.now) }
        requires basic { IsBasic (store_of self.now) basic }
        ensures { IfSome result (λ other. (v : ℕ) → v ≢ basic → v ≢ other
            → entry_of (store_of self.now) basic v ≡ pos 0) }
    {
        if let Place::Kept(_) = self.places[basic] {
            return None;
        }
        let other = self.pair(basic).other;
        match self.places[other] {
            Place::Kept(_) => None,
            _ => Some(other),
        }
    }

    /// The right side of the equation of a basic variable.
    pub(crate) fn right(&self, basic: usize) -> i64
        requires short { IsShort (store_of self.now) }
        requires basic { IsBasic (store_of self.now) basic }
        ensures { result ≡ right_of (store_of self.now) basic }
    {
        match self.places[basic] {
            Place::Kept(slot) => self.cell(slot, self.width + 1),
            _ => self.paired_right(basic, self.pair(basic)),
        }
    }

    /// The right side of the equation of a basic variable that follows from its pair.
    #[tactic(auto, using(crate::proofs::Shorts::other_within))]
    fn paired_right(&self, basic: usize, pair: Pair) -> i64
        requires short { IsShort (store_of self.now) }
        requires basic { IsBasic (store_of self.now) basic }
        requires paired { place_of (store_of self.now) basic ≡ Paired }
        requires pair { pair_of (store_of self.now) basic ≡ Some pair }
        ensures { result ≡ right_of (store_of self.now) basic }
    {
        match self.places[pair.other] {
            Place::Kept(slot) => self.mirror_right(slot, basic, pair),
            _ => pair.sum,
        }
    }

    /// The same, where the equation of the pair's other variable is kept in this slot.
    #[tactic(auto, using(crate::proofs::Shorts::slot_within, crate::proofs::Shorts::sum_small))]
    fn mirror_right(&self, slot: usize, basic: usize, pair: Pair) -> i64
        requires short { IsShort (store_of self.now) }
        requires basic { IsBasic (store_of self.now) basic }
        requires paired { place_of (store_of self.now) basic ≡ Paired }
        requires pair { pair_of (store_of self.now) basic ≡ Some pair }
        requires other { place_of (store_of self.now) pair.other ≡ Kept slot }
        ensures { result ≡ right_of (store_of self.now) basic }
    {
        cross(
            self.cell(slot, self.width),
            pair.sum,
            self.cell(slot, self.width + 1),
            1,
        ) as i64
    }
}
