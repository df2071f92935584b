// A pivot of what is kept by slots and pairs.
ghost use Rattle.std.specs.Prelude.{◌≡◌, ◌<◌, ◌≤◌, ◌+◌, ℕ, pos, ◌<ℤ◌, unsigned_abs, length, None, [], slice_index_or, slice_set, if◌then◌else◌};
ghost use Rattle.std.specs.List.{All};
ghost use Rattle.exact_num.specs.Divisors.{IsPrimitive};
ghost use Rattle.exact_num.specs.declared.limits.TheConstants.{WIDE};
ghost use Rattle.row_program.specs.Forms.{first_large, map_from};
ghost use Rattle.pivot_form.specs.Kept as spec;
ghost use Rattle.pivot_form.specs.Kept.{cleared_by, next_by};
ghost use Rattle.pivot_form.specs.Invariant.{IsEquation, row_lists};

use crate::rows::{clear_by, store};
use crate::small_rows::clear_small;
use exact_num::WIDE;

/// The turned equation of the entering variable, by which the others are cleared: the leaving variable has the entering
/// one's column, and the entry of the latter stands apart.
#[derive(Clone, Copy, Debug)]
pub(crate) struct Lead<'a> {
    /// The column.
    pub(crate) column: usize,
    /// The entry of the entering variable.
    pub(crate) own: i64,
    /// The entries of the columns, 0 for the basic entry, and the right side.
    pub(crate) row: &'a [i64],
    /// No entry of the row has a greater size.
    pub(crate) most: u64,
    pub ghost within: { column + 2 < length row.now },
    pub ghost positive: { pos 0 <ℤ own },
    pub ghost small_own: { unsigned_abs own < WIDE },
    pub ghost small: { All (λ x. unsigned_abs x < WIDE) row.now },
    pub ghost below: { All (λ x. unsigned_abs x ≤ most) row.now },
}

/// Clears a slot's row of the entering variable, whose column the leaving one takes.
fn clear_short(row: &mut [i64], lead: &Lead<'_>, scratch: &mut [i128])
    requires same_lead { length lead.now.row.now ≡ length row.old }
    requires same_scratch { length scratch.old ≡ length row.old }
    requires small_row { All (λ x. unsigned_abs x < WIDE) row.old }
    requires primitive { IsPrimitive row.old }
    requires narrow { first_large (cleared_by lead.now.column lead.now.own lead.now.row.now row.old) ≡ None }
    ensures { row.new ≡ cleared_by lead.now.column lead.now.own lead.now.row.now row.old }
{
    let q = row[lead.column];
    if q == 0 {
        return;
    }
    row[lead.column] = 0;
    let basic = row.len() - 2;
    if !clear_small(row, basic, lead.own, q, lead.row, lead.most) {
        clear_by(scratch, lead.own, row, q, lead.row);
        store(row, scratch);
    }
}

/// Writes what the slot keeps next: the entering variable's own slot the lead with its own entry, another its row, cleared.
fn renew_short(row: &mut [i64], own: bool, width: usize, lead: &Lead<'_>, scratch: &mut [i128])
    requires wide { length row.old ≡ width + 2 }
    requires same_lead { length lead.now.row.now ≡ width + 2 }
    requires same_scratch { length scratch.old ≡ width + 2 }
    requires small_row { All (λ x. unsigned_abs x < WIDE) row.old }
    requires primitive { IsPrimitive row.old }
    requires narrow { first_large (if own then slice_set lead.now.row.now width lead.now.own
        else cleared_by lead.now.column lead.now.own lead.now.row.now row.old) ≡ None }
    ensures { row.new ≡ (if own then slice_set lead.now.row.now width lead.now.own
        else cleared_by lead.now.column lead.now.own lead.now.row.now row.old) }
{
    if own {
        row.copy_from_slice(lead.row);
        row[width] = lead.own;
    } else {
        clear_short(row, lead, scratch);
    }
}

/// Writes what every slot keeps next.
pub(crate) fn clear_slots(
    rows: &mut [Vec<i64>],
    slot: Option<usize>,
    width: usize,
    lead: &Lead<'_>,
    scratch: &mut [i128],
)
    requires equations { (k : ℕ) → k < length rows.old
        → IsEquation (width + 1) (slice_index_or (row_lists rows.old) k []) }
    requires same_lead { length lead.now.row.now ≡ width + 2 }
    requires same_scratch { length scratch.old ≡ width + 2 }
    requires narrow { (k : ℕ) → k < length rows.old
        → first_large (next_by width lead.now.column lead.now.own lead.now.row.now slot k
        (slice_index_or (row_lists rows.old) k [])) ≡ None }
    ensures { row_lists rows.new
        ≡ map_from (next_by width lead.now.column lead.now.own lead.now.row.now slot) 0 (row_lists rows.old) }
{
    for (k, row) in rows.iter_mut().enumerate() {
        let own = is_slot(slot, k);
        renew_short(row.as_mut_slice(), own, width, lead, scratch);
    }
}

/// Whether the slot is the one with this number.
fn is_slot(slot: Option<usize>, k: usize) -> bool
    ensures { result ≡ spec.is_slot slot k }
{
    match slot {
        Some(own) => own == k,
        None => false,
    }
}
