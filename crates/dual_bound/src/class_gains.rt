// The gains of the classes of ballots.
ghost use Rattle.std.specs.Prelude.{◌≡◌, ◌≤◌, ◌<◌, ◌+◌, ◌^◌, ℕ, List, All, length, map, unsigned_abs, pos, ◌≤ℤ◌, ◌*ℤ◌};
ghost use Rattle.mov_base.specs.Sums.{add_up};
ghost use Rattle.sig_graph.specs.Paths.{arc_total};
ghost use Rattle.signature_class.specs.Classes.{IsGrouped};
ghost use Rattle.goal_rows.specs.declared.goals.Goal.TheVariants.{Suffix};
ghost use Rattle.dual_bound.specs.CutTest.{AreMultipliers};
ghost use Rattle.dual_bound.specs.Largest.{AreSmall, IsDescending};
ghost use Rattle.dual_bound.specs.Sizes.{IsSmallArc, IsSmallBest, IsSmallGround, places_of as goal_places};
ghost use Rattle.dual_bound.specs.Weighing.{IsBestNew, cost_by, gain_by, gain_over, of_rows as rows_part, row_arcs};
ghost use Rattle.dual_bound.specs.WeighingParts.{gains_by};

use crate::arc_weights::{best_of_arcs, write_arcs};
use crate::ballot_costs::cost;
use crate::bases::{of_limits, of_rows, total};
use crate::largest::sort_classes;
use exact_num::WIDE;
use goal_rows::Goal;
use goal_rows::parts::Ground;
use row_program::{Limit, MOST_LIMITS};

/// How many places the goal's graph has.
pub(crate) fn places_of(start: &Ground) -> u8
    requires { IsSmallGround start.now }
    ensures { result ≡ goal_places start.now.goal }
{
    match &start.goal {
        Goal::Suffix(suffix) => suffix.as_slice().len() as u8,
        Goal::Root | Goal::Pair(_, _) | Goal::Cover(_) => 0,
    }
}

/// The most that a new ballot brings. Of a suffix `arcs` takes what each arc brings, and `cells` the best from each
/// place.
pub(crate) fn best_new(
    start: &Ground,
    limits: &[Limit],
    multipliers: &[u64],
    arcs: &mut [i128],
    cells: &mut [i128],
) -> i128
    requires start { IsSmallGround start.now }
    requires few { length limits.now ≤ MOST_LIMITS }
    requires multipliers { AreMultipliers start.now limits.now multipliers.now }
    requires arcs { length arcs.old ≡ arc_total (goal_places start.now.goal) }
    requires cells { length cells.old ≡ goal_places start.now.goal + 1 }
    ensures best { IsBestNew start.now limits.now multipliers.now result }
    ensures small { IsSmallBest result }
{
    let rows = of_rows(start, multipliers);
    let bounds = of_limits(start, multipliers);
    match &start.goal {
        Goal::Root => 0,
        Goal::Suffix(suffix) => {
            let m = suffix.as_slice().len() as u8;
            best_of_arcs(m, rows, limits, bounds, arcs, cells)
        }
        Goal::Pair(_, _) => best_of_pair(rows[0], start.lone),
        Goal::Cover(_) => total(rows) as i128,
    }
}

/// What the ballot that ranks a pair's gainer alone brings: the multiplier times its weight.
fn best_of_pair(multiplier: u64, lone: i64) -> i128
    requires multiplier { multiplier < WIDE }
    requires lone_low { pos 0 ≤ℤ lone }
    requires lone_high { lone ≤ℤ pos 1024 }
    ensures value { result ≡ pos multiplier *ℤ lone }
    ensures small { IsSmallBest result }
{
    i128::from(multiplier) * i128::from(lone)
}

/// Writes, of a suffix, what each arc brings by the rows.
pub(crate) fn write_row_arcs(start: &Ground, multipliers: &[u64], arcs: &mut [i128])
    requires start { IsSmallGround start.now }
    requires rows { length start.now.sums ≤ length multipliers.now }
    requires multipliers { All (λ l. l < WIDE) multipliers.now }
    requires arcs { length arcs.old ≡ arc_total (goal_places start.now.goal) }
    ensures value { (suffix : List ℕ) → start.now.goal ≡ Suffix suffix →
        arcs.new ≡ row_arcs (length suffix) (rows_part start.now multipliers.now) }
    ensures small { All IsSmallArc arcs.new }
{
    match &start.goal {
        Goal::Suffix(suffix) => {
            let m = suffix.as_slice().len() as u8;
            write_arcs(m, of_rows(start, multipliers), &[], &[], arcs);
        }
        Goal::Root | Goal::Pair(_, _) | Goal::Cover(_) => {}
    }
}

/// Writes the gain of each class and how many ballots it has, the greatest gain first. `arcs` has for a suffix what
/// each arc brings by the rows.
pub(crate) fn sorted_gains(
    start: &Ground,
    limits: &[Limit],
    multipliers: &[u64],
    best: i128,
    arcs: &[i128],
    places: &mut [(u128, u32)],
)
    requires start { IsSmallGround start.now }
    requires few { length limits.now ≤ MOST_LIMITS }
    requires multipliers { AreMultipliers start.now limits.now multipliers.now }
    requires best { IsSmallBest best }
    requires arcs { (suffix : List ℕ) → start.now.goal ≡ Suffix suffix →
        arcs.now ≡ row_arcs (length suffix) (rows_part start.now multipliers.now) }
    requires small { All IsSmallArc arcs.now }
    requires places { length places.old ≡ length start.now.classes }
    ensures order { IsDescending places.new }
    ensures small { AreSmall places.new }
    ensures counted { add_up (λ p. p.1) places.new ≡ start.now.ballots }
    ensures same { (keys : List ℕ) → IsGrouped keys start.now.classes →
        IsGrouped (map (gain_by best (cost_by start.now limits.now multipliers.now)) keys) places.new }
{
    write_gains(start, limits, multipliers, best, arcs, places);
    sort_classes(places);
}

/// Writes the gain of each class and how many ballots it has.
fn write_gains(
    start: &Ground,
    limits: &[Limit],
    multipliers: &[u64],
    best: i128,
    arcs: &[i128],
    places: &mut [(u128, u32)],
)
    requires start { IsSmallGround start.now }
    requires few { length limits.now ≤ MOST_LIMITS }
    requires multipliers { AreMultipliers start.now limits.now multipliers.now }
    requires best { IsSmallBest best }
    requires arcs { (suffix : List ℕ) → start.now.goal ≡ Suffix suffix →
        arcs.now ≡ row_arcs (length suffix) (rows_part start.now multipliers.now) }
    requires small { All IsSmallArc arcs.now }
    requires places { length places.old ≡ length start.now.classes }
    ensures value { places.new ≡ gains_by best (cost_by start.now limits.now multipliers.now) start.now.classes }
    ensures small { AreSmall places.new }
{
    for (i, place) in places.iter_mut().enumerate() {
        let cost = cost(start, limits, multipliers, arcs, start.classes.key(i));
        *place = (gain(best, cost), start.classes.count(i));
    }
}

/// What is gained where the best new ballot replaces one of this cost; nothing where that costs more.
fn gain(best: i128, cost: i128) -> u128
    requires best { IsSmallBest best }
    requires cost { unsigned_abs cost ≤ 2 ^ 81 }
    ensures value { result ≡ gain_over best cost }
    ensures small { result ≤ 2 ^ 88 }
{
    (best - cost).max(0).unsigned_abs()
}
