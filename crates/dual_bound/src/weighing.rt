// The gains of all classes, in room that is lent.
ghost use Rattle.std.specs.Prelude.{◌≡◌, ◌≤◌, ◌+◌, ◌^◌, ◌↔◌, IsTrue, IfOk, ℕ, ℤ, List, length, map, pos, ◌≤ℤ◌};
ghost use Rattle.mov_base.specs.Sums.{add_up};
ghost use Rattle.signature_class.specs.Classes.{IsGrouped};
ghost use Rattle.dual_bound.specs.CutTest.{AreMultipliers};
ghost use Rattle.dual_bound.specs.Largest.{AreSmall, CutsAt, IsDescending, IsGreatestCut};
ghost use Rattle.dual_bound.specs.Rooms.{HasTables};
ghost use Rattle.dual_bound.specs.Sizes.{AreSmallLimits, IsSmallBest, IsSmallGround};
ghost use Rattle.dual_bound.specs.Weighing.{IsBestNew, base_by, cost_by, gain_by};

use crate::bases::base;
use crate::class_gains::{best_new, places_of, sorted_gains, write_row_arcs};
use crate::largest::{cuts_at, greatest_cut};
use goal_rows::parts::Ground;
use mov_base::Memory;
use row_program::{Limit, MOST_LIMITS};
use sig_graph::arc_count;
use std::alloc::Global;

/// The most arcs of a suffix: those of 40 places.
const MOST_ARCS: usize = 820;

/// The start and the most places of a suffix.
const MOST_CELLS: usize = 41;

/// Room for what the arcs of a suffix bring, by the rows and by rows and limits, and for the best from each place.
#[derive(Drop)]
pub(crate) struct Tables {
    pub(crate) row_arcs: Vec<i128>,
    pub(crate) arcs: Vec<i128>,
    pub(crate) cells: Vec<i128>,
}

impl Tables {
    /// Room for every suffix.
    pub(crate) fn new(alloc: Global) -> Result<Tables, Memory>
        ensures { IfOk result HasTables }
    {
        let row_arcs = vec![in alloc; 0i128; MOST_ARCS]?;
        let arcs = vec![in alloc; 0i128; MOST_ARCS]?;
        let cells = vec![in alloc; 0i128; MOST_CELLS]?;
        Ok(Tables {
            row_arcs,
            arcs,
            cells,
        })
    }
}

/// Whether the test passes at `t`. The room for gains is at least that of the classes.
pub(crate) fn cuts_in_room(
    start: &Ground,
    limits: &[Limit],
    multipliers: &[u64],
    t: u32,
    tables: &mut Tables,
    places: &mut Vec<(u128, u32)>,
) -> bool
    requires start { IsSmallGround start.now }
    requires limits { AreSmallLimits limits.now }
    requires multipliers { AreMultipliers start.now limits.now multipliers.now }
    requires tables { HasTables tables.old }
    requires room { length start.now.classes ≤ length places.old.items }
    requires enough { t ≤ start.now.ballots + 1 }
    ensures value { (best : ℤ) × IsBestNew start.now limits.now multipliers.now best ×
        ((keys : List ℕ) → IsGrouped keys start.now.classes → (IsTrue result
        ↔ CutsAt (base_by start.now limits.now multipliers.now)
        (map (gain_by best (cost_by start.now limits.now multipliers.now)) keys) t)) }
    ensures tables { HasTables tables.new }
    ensures room { length places.new.items ≡ length places.old.items }
{
    let places = &mut places[..start.classes.len()];
    weigh(start, limits, multipliers, tables, places);
    cuts_at(base(start, limits, multipliers), places, t)
}

/// The greatest number at which the test passes. The room for gains is at least that of the classes.
pub(crate) fn bound_in_room(
    start: &Ground,
    limits: &[Limit],
    multipliers: &[u64],
    tables: &mut Tables,
    places: &mut Vec<(u128, u32)>,
) -> u32
    requires start { IsSmallGround start.now }
    requires limits { AreSmallLimits limits.now }
    requires multipliers { AreMultipliers start.now limits.now multipliers.now }
    requires tables { HasTables tables.old }
    requires room { length start.now.classes ≤ length places.old.items }
    ensures value { (best : ℤ) × IsBestNew start.now limits.now multipliers.now best ×
        ((keys : List ℕ) → IsGrouped keys start.now.classes →
        IsGreatestCut (base_by start.now limits.now multipliers.now)
        (map (gain_by best (cost_by start.now limits.now multipliers.now)) keys) (start.now.ballots + 1) result) }
    ensures tables { HasTables tables.new }
    ensures room { length places.new.items ≡ length places.old.items }
{
    let places = &mut places[..start.classes.len()];
    weigh(start, limits, multipliers, tables, places);
    greatest_cut(base(start, limits, multipliers), places, start.ballots)
}

/// Writes the gain of each class and how many ballots it has, the greatest gain first, and gives the most that a new
/// ballot brings.
fn weigh(
    start: &Ground,
    limits: &[Limit],
    multipliers: &[u64],
    tables: &mut Tables,
    places: &mut [(u128, u32)],
) -> i128
    requires start { IsSmallGround start.now }
    requires limits { AreSmallLimits limits.now }
    requires multipliers { AreMultipliers start.now limits.now multipliers.now }
    requires tables { HasTables tables.old }
    requires places { length places.old ≡ length start.now.classes }
    ensures best { IsBestNew start.now limits.now multipliers.now result }
    ensures order { IsDescending places.new }
    ensures small { AreSmall places.new }
    ensures counted { add_up (λ p. p.1) places.new ≡ start.now.ballots }
    ensures same { (keys : List ℕ) → IsGrouped keys start.now.classes →
        IsGrouped (map (gain_by result (cost_by start.now limits.now multipliers.now)) keys) places.new }
    ensures tables { HasTables tables.new }
{
    let best = best_in_room(
        start,
        limits,
        multipliers,
        &mut tables.arcs,
        &mut tables.cells,
    );
    gains_in_room(
        start,
        limits,
        multipliers,
        best,
        &mut tables.row_arcs,
        places,
    );
    best
}

/// The most that a new ballot brings, where there is room for the arcs and places of every suffix.
fn best_in_room(
    start: &Ground,
    limits: &[Limit],
    multipliers: &[u64],
    arcs: &mut Vec<i128>,
    cells: &mut Vec<i128>,
) -> i128
    requires start { IsSmallGround start.now }
    requires few { length limits.now ≤ MOST_LIMITS }
    requires multipliers { AreMultipliers start.now limits.now multipliers.now }
    requires arcs { length arcs.old.items ≡ MOST_ARCS }
    requires cells { length cells.old.items ≡ MOST_CELLS }
    ensures best { IsBestNew start.now limits.now multipliers.now result }
    ensures small { IsSmallBest result }
    ensures arcs { length arcs.new.items ≡ MOST_ARCS }
    ensures cells { length cells.new.items ≡ MOST_CELLS }
{
    let m = places_of(start);
    let arcs = &mut arcs[..arc_count(m)];
    let cells = &mut cells[..usize::from(m) + 1];
    best_new(start, limits, multipliers, arcs, cells)
}

/// Writes the gain of each class and how many ballots it has, the greatest gain first, where there is room for the arcs
/// of every suffix.
fn gains_in_room(
    start: &Ground,
    limits: &[Limit],
    multipliers: &[u64],
    best: i128,
    row_arcs: &mut Vec<i128>,
    places: &mut [(u128, u32)],
)
    requires start { IsSmallGround start.now }
    requires few { length limits.now ≤ MOST_LIMITS }
    requires multipliers { AreMultipliers start.now limits.now multipliers.now }
    requires best { IsSmallBest best }
    requires arcs { length row_arcs.old.items ≡ MOST_ARCS }
    requires places { length places.old ≡ length start.now.classes }
    ensures order { IsDescending places.new }
    ensures small { AreSmall places.new }
    ensures counted { add_up (λ p. p.1) places.new ≡ start.now.ballots }
    ensures same { (keys : List ℕ) → IsGrouped keys start.now.classes →
        IsGrouped (map (gain_by best (cost_by start.now limits.now multipliers.now)) keys) places.new }
    ensures arcs { length row_arcs.new.items ≡ MOST_ARCS }
{
    let row_arcs = &mut row_arcs[..arc_count(places_of(start))];
    write_row_arcs(start, multipliers, row_arcs);
    sorted_gains(start, limits, multipliers, best, row_arcs, places);
}
