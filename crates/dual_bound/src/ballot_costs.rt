// What an old ballot costs, by its key.
ghost use Rattle.std.specs.Prelude.{◌≡◌, ◌≤◌, ◌<◌, ◌+◌, ◌*◌, ◌^◌, ℕ, List, All, length, map};
ghost use Rattle.std.specs.Prelude.{unsigned_abs, pos, ◌-ℤ◌, ◌*ℤ◌};
ghost use Rattle.sig_graph.specs.Paths.{arc_total, path_sum};
ghost use Rattle.signature_class.specs.declared.limits.TheConstants.{MOST_PLACES};
ghost use Rattle.goal_rows.specs.Suffixes.{others};
ghost use Rattle.goal_rows.specs.declared.goals.Goal.TheVariants.{Pair, Suffix};
ghost use Rattle.dual_bound.specs.CutTest.{AreMultipliers};
ghost use Rattle.dual_bound.specs.Sizes.{AreNotWide, IsSmallArc, IsSmallGround};
ghost use Rattle.dual_bound.specs.Weighing.{cost_by, of_rows as rows_part, over_weight, places_by, row_arcs};
ghost use Rattle.dual_bound.specs.Weighing.{rows_cost as rows_cost_by, times_all};

use crate::bases::{of_limits, of_rows};
use crate::features::limits_on;
use ballot_form::Cand;
use exact_num::WIDE;
use goal_rows::Goal;
use goal_rows::parts::Ground;
use irv_count::stands_in;
use row_program::{Feature, Limit, MOST_LIMITS};
use sig_graph::arc_index;

/// What a ballot of this key costs where it is replaced. `arcs` has for a suffix what each arc brings by the rows.
pub(crate) fn cost(
    start: &Ground,
    limits: &[Limit],
    multipliers: &[u64],
    arcs: &[i128],
    key: u64,
) -> i128
    requires start { IsSmallGround start.now }
    requires few { length limits.now ≤ MOST_LIMITS }
    requires multipliers { AreMultipliers start.now limits.now multipliers.now }
    requires arcs { (suffix : List ℕ) → start.now.goal ≡ Suffix suffix →
        arcs.now ≡ row_arcs (length suffix) (rows_part start.now multipliers.now) }
    requires small { All IsSmallArc arcs.now }
    requires key { (g l : ℕ) → start.now.goal ≡ Pair g l → key ≤ 2048 }
    ensures value { result ≡ cost_by start.now limits.now multipliers.now key }
    ensures small { unsigned_abs result ≤ 2 ^ 81 }
{
    let counted = limits_on(Feature::From(key), limits, of_limits(start, multipliers));
    rows_cost(start, of_rows(start, multipliers), arcs, key) - counted
}

/// What a ballot of this key counts in the rows, times their multipliers.
fn rows_cost(start: &Ground, rows: &[u64], arcs: &[i128], key: u64) -> i128
    requires start { IsSmallGround start.now }
    requires one_each { length rows.now ≡ length start.now.sums }
    requires rows { AreNotWide rows.now }
    requires arcs { (suffix : List ℕ) → start.now.goal ≡ Suffix suffix → arcs.now ≡ row_arcs (length suffix) rows.now }
    requires small { All IsSmallArc arcs.now }
    requires key { (g l : ℕ) → start.now.goal ≡ Pair g l → key ≤ 2048 }
    ensures value { result ≡ rows_cost_by start.now rows.now key }
    ensures small { unsigned_abs result ≤ 2 ^ 80 }
{
    match &start.goal {
        Goal::Root => 0,
        Goal::Suffix(suffix) => path_cost(suffix.as_slice().len() as u8, arcs, key),
        Goal::Pair(_, _) => pair_cost(rows[0], key),
        Goal::Cover(x) => cover_cost(*x, rows, key),
    }
}

/// What the path of the places with this key brings.
fn path_cost(m: u8, arcs: &[i128], key: u64) -> i128
    requires places { m ≤ MOST_PLACES }
    requires arcs { length arcs.now ≡ arc_total m }
    requires small { All IsSmallArc arcs.now }
    ensures value { result ≡ path_sum m arcs.now 0 (places_by m key) }
    ensures small { unsigned_abs result ≤ 2 ^ 80 }
{
    let mut sum = 0;
    let mut u = 0;
    for x in 1..m + 1 {
        if stands_in(key, x - 1) {
            sum += arcs[arc_index(m, u, x)];
            u = x;
        }
    }
    sum
}

/// What a ballot of this key counts in the row of a pair, times its multiplier.
fn pair_cost(multiplier: u64, key: u64) -> i128
    requires multiplier { multiplier < WIDE }
    requires key { key ≤ 2048 }
    ensures value { result ≡ pos multiplier *ℤ (pos key -ℤ pos 1024) }
    ensures small { unsigned_abs result ≤ 2 ^ 80 }
{
    i128::from(multiplier) * (i128::from(key) - 1024)
}

/// What a ballot of this key counts in the rows of the cover of x, times their multipliers.
fn cover_cost(x: Cand, rows: &[u64], key: u64) -> i128
    requires within { x ≤ length rows.now }
    requires few { length rows.now < MOST_PLACES }
    requires rows { AreNotWide rows.now }
    ensures value { result ≡ times_all rows.now (map (over_weight x key) (others (length rows.now + 1) x)) }
    ensures small { unsigned_abs result ≤ 2 ^ 80 }
{
    let mut sum = 0;
    let mut row = 0;
    for j in 0..rows.len() as u8 + 1 {
        if j != x {
            sum += over_cost(rows[row], key, x, j);
            row += 1;
        }
    }
    sum
}

/// What a ballot of this key counts in the row of the cover of x that compares it with j, times its multiplier.
fn over_cost(multiplier: u64, key: u64, x: Cand, j: Cand) -> i128
    requires multiplier { multiplier < WIDE }
    ensures value { result ≡ pos multiplier *ℤ over_weight x key j }
    ensures small { unsigned_abs result ≤ WIDE }
{
    let size = i128::from(multiplier);
    if stands_in(key, j) {
        -size
    } else if stands_in(key, x) {
        size
    } else {
        0
    }
}
