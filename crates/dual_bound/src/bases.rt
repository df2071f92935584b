// Sums of multipliers, and the value of rows and limits before any replacement.
ghost use Rattle.std.specs.Prelude.{◌≡◌, ◌≤◌, ◌<◌, ◌*◌, ◌^◌, All, length, map, unsigned_abs, pos, ◌*ℤ◌};
ghost use Rattle.mov_base.specs.Sums.{add_up};
ghost use Rattle.ballot_form.specs.declared.limits.TheConstants.{MOST_BALLOTS};
ghost use Rattle.dual_bound.specs.CutTest.{AreMultipliers};
ghost use Rattle.dual_bound.specs.Largest.{IsSmallBase};
ghost use Rattle.dual_bound.specs.Sizes.{AreNotWide, AreSmallLimits, IsSmallGround, IsSmallSum};
ghost use Rattle.dual_bound.specs.Weighing.{base_by, limit_start, times_all};
ghost use Rattle.dual_bound.specs.Weighing.{of_limits as limits_part, of_rows as rows_part};

use exact_num::WIDE;
use goal_rows::MOST_ROWS;
use goal_rows::parts::Ground;
use row_program::{Limit, MOST_LIMITS};

/// The multipliers of the goal's rows.
pub(crate) fn of_rows<'a>(start: &Ground, multipliers: &'a [u64]) -> &'a [u64]
    requires { length start.now.sums ≤ length multipliers.now }
    ensures { result.now ≡ rows_part start.now multipliers.now }
{
    &multipliers[..start.sums.len()]
}

/// The multipliers of the limits, which stand behind those of the goal's rows.
pub(crate) fn of_limits<'a>(start: &Ground, multipliers: &'a [u64]) -> &'a [u64]
    requires { length start.now.sums ≤ length multipliers.now }
    ensures { result.now ≡ limits_part start.now multipliers.now }
{
    &multipliers[start.sums.len()..]
}

/// The sum of the multipliers.
pub(crate) fn total(multipliers: &[u64]) -> u128
    requires multipliers { AreNotWide multipliers.now }
    requires few { length multipliers.now ≤ MOST_ROWS }
    ensures value { result ≡ add_up (λ l. l) multipliers.now }
    ensures small { result ≤ length multipliers.now * WIDE }
{
    let mut sum = 0;
    for multiplier in multipliers {
        sum += u128::from(*multiplier);
    }
    sum
}

/// The values of the goal's rows and of the limits before any replacement, times their multipliers.
pub(crate) fn base(start: &Ground, limits: &[Limit], multipliers: &[u64]) -> i128
    requires start { IsSmallGround start.now }
    requires limits { AreSmallLimits limits.now }
    requires multipliers { AreMultipliers start.now limits.now multipliers.now }
    ensures value { result ≡ base_by start.now limits.now multipliers.now }
    ensures small { IsSmallBase result }
{
    let rows = rows_base(start.sums.as_slice(), of_rows(start, multipliers));
    rows + limits_base(limits, of_limits(start, multipliers))
}

/// The values of rows times their multipliers.
fn rows_base(sums: &[i64], multipliers: &[u64]) -> i128
    requires one_each { length multipliers.now ≡ length sums.now }
    requires multipliers { AreNotWide multipliers.now }
    requires few { length sums.now ≤ MOST_ROWS }
    requires sums { All IsSmallSum sums.now }
    ensures value { result ≡ times_all multipliers.now sums.now }
    ensures small { unsigned_abs result ≤ MOST_ROWS * 2 ^ 103 }
{
    let mut sum = 0;
    for (i, value) in sums.iter().enumerate() {
        sum += times(multipliers[i], *value);
    }
    sum
}

/// The values of limits times their multipliers.
fn limits_base(limits: &[Limit], multipliers: &[u64]) -> i128
    requires one_each { length multipliers.now ≡ length limits.now }
    requires multipliers { AreNotWide multipliers.now }
    requires limits { AreSmallLimits limits.now }
    ensures value { result ≡ times_all multipliers.now (map limit_start limits.now) }
    ensures small { unsigned_abs result ≤ MOST_LIMITS * 2 ^ 103 }
{
    let mut sum = 0;
    for (i, limit) in limits.iter().enumerate() {
        sum += times(multipliers[i], before_any(limit));
    }
    sum
}

/// The value of a limit before any replacement.
fn before_any(limit: &Limit) -> i64
    requires { limit.now.value ≤ MOST_BALLOTS }
    ensures value { result ≡ limit_start limit.now }
    ensures small { IsSmallSum result }
{
    let value = i64::from(limit.value);
    if limit.at_most { value } else { -value }
}

/// The product of a multiplier and a value.
fn times(multiplier: u64, value: i64) -> i128
    requires multiplier { multiplier < WIDE }
    requires value { IsSmallSum value }
    ensures value { result ≡ pos multiplier *ℤ value }
    ensures small { unsigned_abs result ≤ 2 ^ 103 }
{
    i128::from(multiplier) * i128::from(value)
}
