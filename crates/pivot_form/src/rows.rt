// One equation at a pivot.
ghost use Rattle.std.specs.Prelude.{◌≡◌, ◌<◌, ℤ, pos, ◌<ℤ◌, ◌≢◌, unsigned_abs, length, slice_index_or, map};
ghost use Rattle.std.specs.List.{All};
ghost use lib.IntN.{neg_ℤ};
ghost use Rattle.exact_num.specs.Divisors.{primitive};
ghost use Rattle.row_program.specs.Forms.{combination, eliminated, first_large, turned};

use exact_num::{Ratio, WIDE, cross, reduce_row};

/// Writes p times the row less q times the lead.
pub(crate) fn combine(out: &mut [i128], p: i64, row: &[i64], q: i64, lead: &[i64])
    requires same_row { length row.now ≡ length out.old }
    requires same_lead { length lead.now ≡ length out.old }
    requires small_p { unsigned_abs p < WIDE }
    requires small_q { unsigned_abs q < WIDE }
    requires small_row { All (λ x. unsigned_abs x < WIDE) row.now }
    requires small_lead { All (λ x. unsigned_abs x < WIDE) lead.now }
    ensures { out.new ≡ combination p row.now q lead.now }
{
    for (i, place) in out.iter_mut().enumerate() {
        *place = cross(p, row[i], q, lead[i]);
    }
}

/// The size of the first entry of 63 bits or more.
pub(crate) fn find_large(row: &[i128]) -> Option<u128>
    ensures { result ≡ first_large row.now }
{
    for x in row {
        let size = x.unsigned_abs();
        if size >= 1 << 63 {
            return Some(size);
        }
    }
    None
}

/// Copies the wide entries, none of which is large.
pub(crate) fn store(row: &mut [i64], wide: &[i128])
    requires same { length wide.now ≡ length row.old }
    requires small { All (λ x. unsigned_abs x < WIDE) wide.now }
    ensures { row.new ≡ wide.now }
{
    for (i, place) in row.iter_mut().enumerate() {
        *place = wide[i] as i64;
    }
}

/// Writes p times the row less q times the lead, divided by its greatest common divisor. The fraction of the lead that is
/// taken away is brought to lowest terms first, which makes the products smaller.
pub(crate) fn clear_by(out: &mut [i128], p: i64, row: &[i64], q: i64, lead: &[i64])
    requires same_row { length row.now ≡ length out.old }
    requires same_lead { length lead.now ≡ length out.old }
    requires small_p { unsigned_abs p < WIDE }
    requires small_q { unsigned_abs q < WIDE }
    requires small_row { All (λ x. unsigned_abs x < WIDE) row.now }
    requires small_lead { All (λ x. unsigned_abs x < WIDE) lead.now }
    requires positive { pos 0 <ℤ p }
    ensures { out.new ≡ primitive (combination p row.now q lead.now) }
{
    let factor = Ratio::new(q, p);
    combine(out, factor.den, row, factor.num, lead);
    reduce_row(out);
}

/// Writes the row, cleared in the column by the lead and divided by its greatest common divisor.
pub(crate) fn clear(out: &mut [i128], row: &[i64], lead: &[i64], column: usize)
    requires same_row { length row.now ≡ length out.old }
    requires same_lead { length lead.now ≡ length out.old }
    requires within { column < length row.now }
    requires small_row { All (λ x. unsigned_abs x < WIDE) row.now }
    requires small_lead { All (λ x. unsigned_abs x < WIDE) lead.now }
    requires positive { pos 0 <ℤ slice_index_or lead.now column (pos 0) }
    ensures { out.new ≡ eliminated column row.now lead.now }
{
    clear_by(out, lead[column], row, row[column], lead);
}

/// Copies the row, turned so that its entry in the column is positive.
pub(crate) fn turn(lead: &mut [i64], row: &[i64], column: usize)
    requires same { length lead.old ≡ length row.now }
    requires within { column < length row.now }
    requires small { All (λ x. unsigned_abs x < WIDE) row.now }
    requires nonzero { slice_index_or row.now column (pos 0) ≢ pos 0 }
    ensures value { lead.new ≡ turned column row.now }
    ensures small { All (λ x. unsigned_abs x < WIDE) lead.new }
    ensures positive { pos 0 <ℤ slice_index_or lead.new column (pos 0) }
{
    lead.copy_from_slice(row);
    if row[column] < 0 {
        negate(lead);
    }
}

/// Turns the sign of each entry.
pub(crate) fn negate(row: &mut [i64])
    requires { All (λ x. unsigned_abs x < WIDE) row.old }
    ensures { row.new ≡ map neg_ℤ row.old }
{
    for x in row.iter_mut() {
        *x = opposite(*x);
    }
}

/// The number with the other sign.
pub(crate) fn opposite(x: i64) -> i64
    requires { unsigned_abs x < WIDE }
    ensures { result ≡ neg_ℤ x }
{
    -x
}
