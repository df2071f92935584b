// What the arcs of a suffix bring.
ghost use Rattle.std.specs.Prelude.{◌≡◌, ◌≤◌, ◌<◌, ◌+◌, ◌-◌, ◌*◌, ◌^◌, All, length, map, unsigned_abs, pos, ◌+ℤ◌, ◌≤ℤ◌};
ghost use Rattle.sig_graph.specs.Paths.{IsBest, arc_at, arc_total, arcs_of};
ghost use Rattle.signature_class.specs.declared.limits.TheConstants.{MOST_PLACES};
ghost use Rattle.dual_bound.specs.Sizes.{AreNotWide, IsSmallArc, IsSmallBest};
ghost use Rattle.dual_bound.specs.Weighing.{is_arc, limits_bring, rows_bring};
ghost use Rattle.dual_bound.specs.WeighingParts.{round_brings};

use crate::bases::total;
use crate::features::limits_on;
use exact_num::WIDE;
use goal_rows::MOST_ROWS;
use row_program::{Feature, Limit, MOST_LIMITS};
use sig_graph::best_path;

/// The most that a path of a suffix of m candidates brings, by the rows and the limits with these multipliers.
pub(crate) fn best_of_arcs(
    m: u8,
    rows: &[u64],
    limits: &[Limit],
    bounds: &[u64],
    arcs: &mut [i128],
    cells: &mut [i128],
) -> i128
    requires places { m ≤ MOST_PLACES }
    requires one_each { length rows.now ≡ arc_total (m - 1) }
    requires rows { AreNotWide rows.now }
    requires one_each_limit { length bounds.now ≡ length limits.now }
    requires bounds { AreNotWide bounds.now }
    requires few { length limits.now ≤ MOST_LIMITS }
    requires arcs { length arcs.old ≡ arc_total m }
    requires cells { length cells.old ≡ m + 1 }
    ensures best { IsBest m (map (λ a. rows_bring m rows.now a +ℤ limits_bring (is_arc a) bounds.now limits.now)
        (arcs_of m)) 0 result }
    ensures small { IsSmallBest result }
{
    write_arcs(m, rows, limits, bounds, arcs);
    best_path(m, arcs, cells)
}

/// Writes what each arc of a suffix of m candidates brings, by the rows and the limits with these multipliers.
pub(crate) fn write_arcs(m: u8, rows: &[u64], limits: &[Limit], bounds: &[u64], arcs: &mut [i128])
    requires places { m ≤ MOST_PLACES }
    requires one_each { length rows.now ≡ arc_total (m - 1) }
    requires rows { AreNotWide rows.now }
    requires one_each_limit { length bounds.now ≡ length limits.now }
    requires bounds { AreNotWide bounds.now }
    requires few { length limits.now ≤ MOST_LIMITS }
    requires arcs { length arcs.old ≡ arc_total m }
    ensures value { arcs.new ≡ map (λ a. rows_bring m rows.now a +ℤ limits_bring (is_arc a) bounds.now limits.now)
        (arcs_of m) }
    ensures small { All IsSmallArc arcs.new }
{
    let mut u = 0;
    let mut x = 1;
    for arc in arcs.iter_mut() {
        *arc = by_rows(m, rows, u, x) + limits_on(Feature::Arc(u, x), limits, bounds);
        let next = next_arc(m, u, x);
        u = next.0;
        x = next.1;
    }
}

/// The arc behind that from u to x. Behind the last one there is none: the numbers are m and m + 1 then.
fn next_arc(m: u8, u: u8, x: u8) -> (u8, u8)
    requires places { m ≤ MOST_PLACES }
    requires begins { u < x }
    requires ends { x ≤ m }
    ensures number { arc_at m result.0 result.1 ≡ arc_at m u x + 1 }
    ensures begins { result.0 < result.1 }
    ensures within { result.0 ≤ m }
    ensures ends { result.1 ≤ m + 1 }
    ensures last { m < result.1 → result.0 ≡ m }
{
    if x < m { (u, x + 1) } else { (u + 1, u + 2) }
}

/// What the arc from u to x brings by the rows.
fn by_rows(m: u8, rows: &[u64], u: u8, x: u8) -> i128
    requires places { m ≤ MOST_PLACES }
    requires one_each { length rows.now ≡ arc_total (m - 1) }
    requires rows { AreNotWide rows.now }
    requires begins { u < x }
    requires ends { x ≤ m }
    ensures value { result ≡ rows_bring m rows.now (u, x) }
    ensures small { unsigned_abs result ≤ MOST_ROWS * WIDE }
{
    let mut sum = 0;
    let mut first = 0;
    for i in 1..m {
        let end = first + usize::from(m - i);
        sum += by_round(i, &rows[first..end], u, x);
        first = end;
    }
    sum
}

/// What the arc from u to x brings by the rows of round i: the multiplier of the row of i and x on an arc over i, and
/// less all multipliers of the round on an arc to i.
fn by_round(i: u8, round: &[u64], u: u8, x: u8) -> i128
    requires round { 1 ≤ i }
    requires multipliers { AreNotWide round.now }
    requires few { length round.now ≤ MOST_PLACES }
    requires begins { u < x }
    requires ends { x ≤ i + length round.now }
    ensures value { result ≡ round_brings i round.now (u, x) }
    ensures small { unsigned_abs result ≤ length round.now * WIDE }
{
    if i <= u || x < i {
        0
    } else if x == i {
        -(total(round) as i128)
    } else {
        i128::from(round[usize::from(x - i - 1)])
    }
}
