// Whether a pivot surely makes no large entry.
ghost use Rattle.std.specs.Prelude.{◌≡◌, ◌≢◌, ◌<◌, ◌≤◌, ◌+◌, ◌*◌, ℕ, pos, unsigned_abs, length, IsTrue, Some, None, slice_index, slice_index_or};
ghost use Rattle.std.specs.List.{All};
ghost use Rattle.row_program.specs.Forms.{entry, first_large_of, next_form};
ghost use Rattle.pivot_form.specs.Kept.{pair_of, place_of, table_of, variables_of};
ghost use Rattle.pivot_form.specs.Shorts.{IsShort, store_of};
ghost use Rattle.pivot_form.specs.declared.places.Pair.{Pair};
ghost use Rattle.pivot_form.specs.declared.places.Place.TheVariants.{Column, Kept};

use crate::short::Short;
use exact_num::WIDE;

/// A bound on the sizes of the entries, less than twice the greatest: the bits that any of them has.
pub(crate) fn most(row: &[i64]) -> u64
    requires { All (λ x. unsigned_abs x < WIDE) row.now }
    ensures most { All (λ x. unsigned_abs x ≤ result) row.now }
    ensures small { result < WIDE }
{
    let mut most = 0;
    for x in row {
        most |= x.unsigned_abs();
    }
    most
}

/// Whether the bound, times one more than the sum, is small. Then so is each number up to the bound, and so is one of
/// them times a sum that is no greater, less another.
fn fits(bound: u128, most_sum: u64) -> bool
    ensures { IsTrue result → bound * (most_sum + 1) < WIDE }
{
    let wide = u128::from(WIDE);
    bound < wide && bound * (u128::from(most_sum) + 1) < wide
}

/// Whether a bound shows that neither the row nor its mirror has a large entry once the column is cleared. `p` is the
/// size of the lead's entry there, and `most_lead` the greatest size in the lead.
fn row_fits(row: &[i64], column: usize, p: u64, most_lead: u64, most_sum: u64) -> bool
    requires within { column < length row.now }
    requires small { All (λ x. unsigned_abs x < WIDE) row.now }
    requires small_p { p < WIDE }
    requires small_lead { most_lead < WIDE }
    ensures { IsTrue result → slice_index_or row.now column (pos 0) ≢ pos 0
        → All (λ x. (p * unsigned_abs x + unsigned_abs (slice_index_or row.now column (pos 0)) * most_lead)
        * (most_sum + 1) < WIDE) row.now }
{
    let q = row[column].unsigned_abs();
    if q == 0 {
        return true;
    }
    let kept = u128::from(p) * u128::from(most(row));
    let taken = u128::from(q) * u128::from(most_lead);
    fits(kept + taken, most_sum)
}

/// Whether a bound on its entries shows that the next form is narrow, where the equation of the row's basic variable is
/// kept in this slot. No pair's sum has a greater size than `most_sum`. One pass over the cells; `false` says nothing.
pub(crate) fn surely_narrow(
    short: &Short,
    slot: usize,
    row: usize,
    entering: usize,
    column: usize,
    most_sum: u64,
) -> bool
    requires short { IsShort (store_of short.now) }
    requires sums { (v : ℕ) (p : Pair) → v < variables_of (store_of short.now)
        → pair_of (store_of short.now) v ≡ Some p → unsigned_abs p.sum ≤ most_sum }
    requires row { row < length (store_of short.now).basis }
    requires entering { entering < variables_of (store_of short.now) }
    requires column { place_of (store_of short.now) entering ≡ Column column }
    requires kept { place_of (store_of short.now) (slice_index (store_of short.now).basis row) ≡ Kept slot }
    requires nonzero { entry (table_of (store_of short.now)) row entering ≢ pos 0 }
    ensures { IsTrue result
        → first_large_of (next_form (table_of (store_of short.now)) row entering).rows ≡ None }
{
    let most_lead = most(short.rows[slot].as_slice());
    if !fits(u128::from(most_lead), most_sum) {
        return false;
    }
    let p = short.cell(slot, column).unsigned_abs();
    for (k, other) in short.rows.iter().enumerate() {
        if k != slot && !row_fits(other.as_slice(), column, p, most_lead, most_sum) {
            return false;
        }
    }
    true
}
