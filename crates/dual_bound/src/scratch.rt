// Room for the cut test.
ghost use Rattle.std.specs.Prelude.{◌≡◌, ◌≤◌, ◌+◌, ◌↔◌, IsTrue, IfOk, ℕ, ℤ, List, length, map};
ghost use Rattle.signature_class.specs.Classes.{IsGrouped};
ghost use Rattle.dual_bound.specs.CutTest.{AreMultipliers};
ghost use Rattle.dual_bound.specs.Largest.{CutsAt, IsGreatestCut};
ghost use Rattle.dual_bound.specs.Sizes.{AreSmallLimits, IsSmallGround};
ghost use Rattle.dual_bound.specs.Weighing.{IsBestNew, base_by, cost_by, gain_by};

use crate::weighing::{Tables, bound_in_room, cuts_in_room};
use goal_rows::MOST_CLASSES;
use goal_rows::parts::Ground;
use mov_base::Memory;
use row_program::Limit;
use std::alloc::Global;
use std::marker::Model;

/// Room for the gains of so many classes, and for every suffix; contracts see it as the number of classes.
#[derive(Drop)]
pub struct Scratch {
    places: Vec<(u128, u32)>,
    tables: Tables,
}

impl Model for Scratch {
    ghost use Rattle.std.specs.Prelude.{ℕ, length};
    ghost use Rattle.dual_bound.specs.Rooms.{HasTables};

    ghost Value = { ℕ };

    ghost view = { λ scratch. length scratch.places.items };

    ghost invariant = { λ scratch. HasTables scratch.tables };
}

impl Scratch {
    /// Room for 4,096 classes.
    pub fn new(alloc: Global) -> Result<Scratch, Memory>
        ensures { IfOk result (λ scratch. scratch ≡ MOST_CLASSES) }
    {
        Scratch::for_classes(alloc, MOST_CLASSES)
    }

    /// Room for so many classes.
    pub fn for_classes(alloc: Global, count: usize) -> Result<Scratch, Memory>
        ensures { IfOk result (λ scratch. scratch ≡ count) }
    {
        let places = vec![in alloc; (0u128, 0u32); count]?;
        let tables = Tables::new(alloc)?;
        Ok(Scratch { places, tables })
    }

    /// Whether the test passes at `t`.
    pub(crate) fn cuts(
        &mut self,
        start: &Ground,
        limits: &[Limit],
        multipliers: &[u64],
        t: u32,
    ) -> bool
        requires start { IsSmallGround start.now }
        requires limits { AreSmallLimits limits.now }
        requires multipliers { AreMultipliers start.now limits.now multipliers.now }
        requires room { length start.now.classes ≤ self.old }
        requires enough { t ≤ start.now.ballots + 1 }
        ensures value { (best : ℤ) × IsBestNew start.now limits.now multipliers.now best ×
            ((keys : List ℕ) → IsGrouped keys start.now.classes → (IsTrue result
            ↔ CutsAt (base_by start.now limits.now multipliers.now)
            (map (gain_by best (cost_by start.now limits.now multipliers.now)) keys) t)) }
        ensures room { self.new ≡ self.old }
    {
        cuts_in_room(
            start,
            limits,
            multipliers,
            t,
            &mut self.tables,
            &mut self.places,
        )
    }

    /// The greatest number at which the test passes.
    pub(crate) fn bound_of(&mut self, start: &Ground, limits: &[Limit], multipliers: &[u64]) -> u32
        requires start { IsSmallGround start.now }
        requires limits { AreSmallLimits limits.now }
        requires multipliers { AreMultipliers start.now limits.now multipliers.now }
        requires room { length start.now.classes ≤ self.old }
        ensures value { (best : ℤ) × IsBestNew start.now limits.now multipliers.now best ×
            ((keys : List ℕ) → IsGrouped keys start.now.classes →
            IsGreatestCut (base_by start.now limits.now multipliers.now)
            (map (gain_by best (cost_by start.now limits.now multipliers.now)) keys) (start.now.ballots + 1) result) }
        ensures room { self.new ≡ self.old }
    {
        bound_in_room(
            start,
            limits,
            multipliers,
            &mut self.tables,
            &mut self.places,
        )
    }
}
