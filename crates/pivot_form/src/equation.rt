// Single equations, read entry by entry.
ghost use Rattle.std.specs.Prelude.{◌≡◌, ◌≢◌, ◌<◌, ◌+◌, ℕ, pos, length, slice_index_or, unsigned_abs, Some};
ghost use Rattle.pivot_form.specs.Kept.{pair_entry, pair_of, place_of, whole_row};
ghost use Rattle.pivot_form.specs.Origins.{IsOrigin};
ghost use Rattle.pivot_form.specs.Shorts.{IsBasic, IsShort, store_of};
ghost use Rattle.pivot_form.specs.declared.places.Place.TheVariants.{Kept, Paired};

use crate::places::{Pair, Place};
use crate::short::Short;
use exact_num::WIDE;
use std::marker::Model;

/// What an equation is read from.
#[derive(Clone, Copy, Debug)]
pub(crate) enum Origin {
    /// The slot that keeps it.
    Own(usize),
    /// The slot that keeps the equation of its pair's other variable, and the pair.
    Mirror(usize, Pair),
    /// Its pair alone.
    Lone(Pair),
}

/// An equation of a form, lent from it: the entry of each variable, and the right side behind them. Where its entries
/// are kept is looked up once, when it is lent.
#[derive(Debug, Drop)]
pub struct Equation<'a> {
    short: &'a Short,
    basic: usize,
    origin: Origin,
}

impl<'a> Model for Equation<'a> {
    ghost use Rattle.std.specs.Prelude.{List, ℤ};

    ghost Value = { List ℤ };

    ghost use Rattle.pivot_form.specs.Kept.{whole_row};
    ghost use Rattle.pivot_form.specs.Shorts.{IsBasic, IsShort, store_of};
    ghost use Rattle.pivot_form.specs.Origins.{IsOrigin};

    ghost view = { λ e. whole_row (store_of e.short.now) e.basic };

    ghost invariant = { λ e.
        IsShort (store_of e.short.now)
        × IsBasic (store_of e.short.now) e.basic
        × IsOrigin (store_of e.short.now) e.basic e.origin };
}

impl<'a> Equation<'a> {
    /// The equation of a basic variable.
    pub(crate) fn new(short: &'a Short, basic: usize) -> Equation<'a>
        requires short { IsShort (store_of short.now) }
        requires basic { IsBasic (store_of short.now) basic }
        ensures { result ≡ whole_row (store_of short.now) basic }
    {
        Equation {
            short,
            basic,
            origin: origin_of(short, basic),
        }
    }

    /// The entry of the variable with the column's number.
    pub fn entry(&self, column: usize) -> i64
        requires { column + 1 < length self.now }
        ensures value { result ≡ slice_index_or self.now column (pos 0) }
        ensures small { unsigned_abs result < WIDE }
    {
        match self.origin {
            Origin::Own(slot) => self.short.kept_entry(slot, column),
            Origin::Mirror(slot, pair) => self.short.mirror_entry(slot, self.basic, pair, column),
            Origin::Lone(pair) => lone_entry(self.basic, pair.other, column),
        }
    }
}

/// What the equation of a basic variable is read from.
fn origin_of(short: &Short, basic: usize) -> Origin
    requires short { IsShort (store_of short.now) }
    requires basic { IsBasic (store_of short.now) basic }
    ensures { IsOrigin (store_of short.now) basic result }
{
    match short.places[basic] {
        Place::Kept(slot) => Origin::Own(slot),
        _ => paired_origin(short, basic, short.pair(basic)),
    }
}

/// The same of an equation that follows from this pair.
#[tactic(auto, using(crate::proofs::Shorts::other_within))]
fn paired_origin(short: &Short, basic: usize, pair: Pair) -> Origin
    requires short { IsShort (store_of short.now) }
    requires basic { IsBasic (store_of short.now) basic }
    requires paired { place_of (store_of short.now) basic ≡ Paired }
    requires pair { pair_of (store_of short.now) basic ≡ Some pair }
    ensures { IsOrigin (store_of short.now) basic result }
{
    match short.places[pair.other] {
        Place::Kept(slot) => Origin::Mirror(slot, pair),
        _ => Origin::Lone(pair),
    }
}

/// The entry of a variable in the equation that says that two others add up to a number.
fn lone_entry(basic: usize, other: usize, variable: usize) -> i64
    requires { other ≢ basic }
    ensures { result ≡ pair_entry basic other variable }
{
    i64::from(variable == basic || variable == other)
}
