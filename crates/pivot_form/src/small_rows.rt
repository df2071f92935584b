// One equation at a pivot, where a bound tells that 64 bits are enough.
ghost use Rattle.std.specs.Prelude.{◌≡◌, ◌≢◌, ◌<◌, ◌≤◌, ◌+◌, ◌*◌, ℕ, ℤ, pos, ◌*ℤ◌, ◌-ℤ◌, ◌<ℤ◌, unsigned_abs, length, map, slice_index_or, IsTrue, false};
ghost use Rattle.std.specs.List.{All};
ghost use Rattle.std.specs.Int.RustNames.{int_div};
ghost use Rattle.exact_num.specs.Divisors.{primitive, row_gcd};
ghost use Rattle.row_program.specs.Forms.{combination};
ghost use Rattle.pivot_form.specs.Sizes.{HasRoom};

use crate::divisor::{Divisor, common_divisor};
use crate::narrow::most;
use exact_num::{Ratio, WIDE};

/// p x - q y, where the bound tells that it has less than 64 bits.
fn small_cross(p: i64, x: i64, q: i64, y: i64) -> i64
    requires { unsigned_abs p * unsigned_abs x + unsigned_abs q * unsigned_abs y < WIDE }
    ensures { result ≡ p *ℤ x -ℤ q *ℤ y }
{
    p * x - q * y
}

/// Makes p times the row less q times the lead of the row.
fn combine_small(row: &mut [i64], p: i64, q: i64, lead: &[i64])
    requires same { length lead.now ≡ length row.old }
    requires room { HasRoom p row.old q lead.now }
    ensures { row.new ≡ combination p row.old q lead.now }
{
    for (i, x) in row.iter_mut().enumerate() {
        *x = small_cross(p, *x, q, lead[i]);
    }
}

/// The greatest common divisor of the entries. It begins with the entry at this place, the basic one, which is 1 most often.
fn row_divisor(row: &[i64], own: usize) -> i64
    requires own { own < length row.now }
    requires small { All (λ x. unsigned_abs x < WIDE) row.now }
    ensures { result ≡ pos (row_gcd row.now) }
{
    let mut divisor = Divisor::new(common_divisor(0, row[own]));
    for x in row {
        if divisor.value == 1 {
            return 1;
        }
        divisor = divisor.with_entry(*x);
    }
    divisor.value
}

/// Divides each entry, toward 0.
fn divide(row: &mut [i64], divisor: &Divisor)
    requires { pos 0 <ℤ divisor.now.value }
    ensures { row.new ≡ map (λ x. int_div x divisor.now.value) row.old }
{
    for x in row.iter_mut() {
        *x = divisor.part_of(*x);
    }
}

/// Divides all entries by their greatest common divisor. A row of zeros stays.
fn reduce_small(row: &mut [i64], own: usize)
    requires own { own < length row.old }
    requires small { All (λ x. unsigned_abs x < WIDE) row.old }
    ensures { row.new ≡ primitive row.old }
{
    let value = row_divisor(row, own);
    if value > 1 {
        divide(row, &Divisor::new(value));
    }
}

/// Whether p times any entry of the row less q times any number up to `most_lead` in size has less than 64 bits.
fn has_room(row: &[i64], p: i64, q: i64, most_lead: u64) -> bool
    requires { All (λ x. unsigned_abs x < WIDE) row.now }
    ensures { IsTrue result
        → All (λ x. unsigned_abs p * unsigned_abs x + unsigned_abs q * most_lead < WIDE) row.now }
{
    let kept = u128::from(p.unsigned_abs()) * u128::from(most(row));
    let taken = u128::from(q.unsigned_abs()) * u128::from(most_lead);
    kept + taken < u128::from(WIDE)
}

/// Makes p times the row less q times the lead of the row, divided by its greatest common divisor, if a bound tells that
/// 64 bits are enough. No entry of the lead has a greater size than `most_lead`.
pub(crate) fn clear_small(
    row: &mut [i64],
    own: usize,
    p: i64,
    q: i64,
    lead: &[i64],
    most_lead: u64,
) -> bool
    requires own { own < length row.old }
    requires same { length lead.now ≡ length row.old }
    requires small_row { All (λ x. unsigned_abs x < WIDE) row.old }
    requires small_p { unsigned_abs p < WIDE }
    requires small_q { unsigned_abs q < WIDE }
    requires lead { All (λ x. unsigned_abs x ≤ most_lead) lead.now }
    requires positive { pos 0 <ℤ p }
    ensures cleared { IsTrue result → row.new ≡ primitive (combination p row.old q lead.now) }
    ensures unchanged { result ≡ false → row.new ≡ row.old }
{
    let factor = Ratio::new(q, p);
    if !has_room(row, factor.den, factor.num, most_lead) {
        return false;
    }
    combine_small(row, factor.den, factor.num, lead);
    reduce_small(row, own);
    true
}
