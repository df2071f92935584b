// Pivots of what is kept by slots and pairs.
ghost use Rattle.std.specs.Prelude.{◌≡◌, ◌≢◌, ◌<◌, ◌+◌, ◌*ℤ◌, ◌-ℤ◌, ◌<ℤ◌, ℕ, pos, unsigned_abs, length, None, Some, [], slice_index, slice_index_or};
ghost use Rattle.std.specs.List.{All};
ghost use Rattle.row_program.specs.Forms.{IsNonbasic, entry, first_large, first_large_of, next_form, tableau};
ghost use Rattle.pivot_form.specs.Invariant.{IsEquation, row_lists};
ghost use Rattle.pivot_form.specs.Kept.{exchanged, flipped, mirrored, pair_of, pair_row, place_of, table_of, variables_of};
ghost use Rattle.pivot_form.specs.Shorts.{IsBasic, IsShort, StandsAlone, store_of};
ghost use Rattle.pivot_form.specs.declared.places.Place.TheVariants.{Column, Kept, Paired};

use crate::clearing::{Lead, clear_slots};
use crate::narrow::most;
use crate::places::{Pair, Place};
use crate::rows::{negate, turn};
use crate::short::Short;
use exact_num::{WIDE, cross};

/// Writes the pair's equation, times the basic entry, less the row.
fn mirror(row: &mut [i64], width: usize, sum: i64)
    requires wide { length row.old ≡ width + 2 }
    requires small_row { All (λ x. unsigned_abs x < WIDE) row.old }
    requires small_sum { unsigned_abs sum < WIDE }
    requires narrow { unsigned_abs (slice_index_or row.old width (pos 0) *ℤ sum
        -ℤ slice_index_or row.old (width + 1) (pos 0)) < WIDE }
    ensures { row.new ≡ mirrored width sum row.old }
{
    let (own, right) = (row[width], row[width + 1]);
    negate(row);
    row[width] = own;
    row[width + 1] = cross(own, sum, right, 1) as i64;
}

/// Keeps the equation of a paired variable in the slot of its pair's other variable, in place of that one's.
fn flip(short: &mut Short, basic: usize, pair: Pair, slot: usize)
    requires short { IsShort (store_of short.old) }
    requires within { basic < variables_of (store_of short.old) }
    requires paired { place_of (store_of short.old) basic ≡ Paired }
    requires pair { pair_of (store_of short.old) basic ≡ Some pair }
    requires other { place_of (store_of short.old) pair.other ≡ Kept slot }
    ensures { store_of short.new ≡ flipped (store_of short.old) basic pair slot }
{
    let width = short.width;
    mirror(short.rows[slot].as_mut_slice(), width, pair.sum);
    short.places[basic] = Place::Kept(slot);
    short.places[pair.other] = Place::Paired;
}

/// The variable of the column takes the place of a basic variable and of its equation, of which the lead is the turned one.
fn exchange(
    short: &mut Short,
    row: usize,
    entering: usize,
    column: usize,
    slot: Option<usize>,
    lead: &mut [i64],
    scratch: &mut [i128],
)
    requires equations { (k : ℕ) → k < length short.old.rows.items
        → IsEquation (short.old.width + 1) (slice_index_or (store_of short.old).rows k []) }
    requires row { row < length (store_of short.old).basis }
    requires basic { slice_index (store_of short.old).basis row < variables_of (store_of short.old) }
    requires entering { entering < variables_of (store_of short.old) }
    requires within { column < short.old.width }
    requires same_lead { length lead.old ≡ short.old.width + 2 }
    requires same_scratch { length scratch.old ≡ short.old.width + 2 }
    requires small_lead { All (λ x. unsigned_abs x < WIDE) lead.old }
    requires positive { pos 0 <ℤ slice_index_or lead.old column (pos 0) }
    requires narrow { (k : ℕ) → k < length short.old.rows.items
        → first_large (slice_index_or (exchanged (store_of short.old) row
        (slice_index (store_of short.old).basis row) entering column lead.old slot).rows k []) ≡ None }
    ensures { store_of short.new ≡ exchanged (store_of short.old) row
        (slice_index (store_of short.old).basis row) entering column lead.old slot }
{
    let width = short.width;
    let p = lead[column];
    lead[column] = lead[width];
    lead[width] = 0;
    let turned = Lead {
        column,
        own: p,
        row: lead,
        most: most(lead),
    };
    clear_slots(short.rows.as_mut_slice(), slot, width, &turned, scratch);
    let basic = short.basics[row];
    let place = short.places[basic];
    short.places[basic] = Place::Column(column);
    short.places[entering] = place;
    short.basics[row] = entering;
}

/// Keeps the equation of a basic variable, where its pair's other one is basic too.
#[tactic(auto, using(crate::proofs::Steps::flipped_short))]
pub(crate) fn unpair(short: &mut Short, basic: usize)
    requires short { IsShort (store_of short.old) }
    requires basic { IsBasic (store_of short.old) basic }
    ensures short { IsShort (store_of short.new) }
    ensures same { table_of (store_of short.new) ≡ table_of (store_of short.old) }
    ensures width { short.new.width ≡ short.old.width }
    ensures pairs { (store_of short.new).pairs ≡ (store_of short.old).pairs }
    ensures basic { IsBasic (store_of short.new) basic }
    ensures alone { StandsAlone (store_of short.new) basic }
{
    let (Place::Paired, Some(pair)) = (short.places[basic], short.pairs[basic]) else {
        return;
    };
    if let Place::Kept(slot) = short.places[pair.other] {
        flip(short, basic, pair, slot);
    }
}

/// The next form, where the equation of the row's basic variable is kept in this slot.
fn pivot_kept(
    short: &mut Short,
    row: usize,
    slot: usize,
    entering: usize,
    column: usize,
    lead: &mut [i64],
    scratch: &mut [i128],
)
    requires short { IsShort (store_of short.old) }
    requires row { row < length (store_of short.old).basis }
    requires entering { entering < variables_of (store_of short.old) }
    requires column { place_of (store_of short.old) entering ≡ Column column }
    requires kept { place_of (store_of short.old) (slice_index (store_of short.old).basis row) ≡ Kept slot }
    requires nonzero { entry (table_of (store_of short.old)) row entering ≢ pos 0 }
    requires narrow { first_large_of (next_form (table_of (store_of short.old)) row entering).rows ≡ None }
    requires same_lead { length lead.old ≡ short.old.width + 2 }
    requires same_scratch { length scratch.old ≡ short.old.width + 2 }
    ensures short { IsShort (store_of short.new) }
    ensures value { table_of (store_of short.new) ≡ next_form (table_of (store_of short.old)) row entering }
    ensures width { short.new.width ≡ short.old.width }
    ensures pairs { (store_of short.new).pairs ≡ (store_of short.old).pairs }
{
    turn(lead, short.rows[slot].as_slice(), column);
    exchange(short, row, entering, column, Some(slot), lead, scratch);
}

/// Writes the equation of a pair, of which the one has the column, as a lead.
fn write_pair(lead: &mut [i64], width: usize, column: usize, sum: i64)
    requires wide { length lead.old ≡ width + 2 }
    requires within { column < width }
    ensures { lead.new ≡ pair_row width column sum }
{
    lead.fill(0);
    lead[width + 1] = sum;
    lead[width] = 1;
    lead[column] = 1;
}

/// The next form, where the equation of the row's basic variable is that of its pair.
fn pivot_pair(
    short: &mut Short,
    row: usize,
    pair: Pair,
    entering: usize,
    column: usize,
    lead: &mut [i64],
    scratch: &mut [i128],
)
    requires short { IsShort (store_of short.old) }
    requires row { row < length (store_of short.old).basis }
    requires entering { entering < variables_of (store_of short.old) }
    requires column { place_of (store_of short.old) entering ≡ Column column }
    requires paired { place_of (store_of short.old) (slice_index (store_of short.old).basis row) ≡ Paired }
    requires pair { pair_of (store_of short.old) (slice_index (store_of short.old).basis row) ≡ Some pair }
    requires other { (j : ℕ) × (place_of (store_of short.old) pair.other ≡ Column j) }
    requires nonzero { entry (table_of (store_of short.old)) row entering ≢ pos 0 }
    requires narrow { first_large_of (next_form (table_of (store_of short.old)) row entering).rows ≡ None }
    requires same_lead { length lead.old ≡ short.old.width + 2 }
    requires same_scratch { length scratch.old ≡ short.old.width + 2 }
    ensures short { IsShort (store_of short.new) }
    ensures value { table_of (store_of short.new) ≡ next_form (table_of (store_of short.old)) row entering }
    ensures width { short.new.width ≡ short.old.width }
    ensures pairs { (store_of short.new).pairs ≡ (store_of short.old).pairs }
{
    write_pair(lead, short.width, column, pair.sum);
    exchange(short, row, entering, column, None, lead, scratch);
}

/// The next form: the variable becomes basic in the row.
pub(crate) fn pivot(
    short: &mut Short,
    row: usize,
    entering: usize,
    lead: &mut [i64],
    scratch: &mut [i128],
)
    requires short { IsShort (store_of short.old) }
    requires row { row < length (store_of short.old).basis }
    requires entering { entering < variables_of (store_of short.old) }
    requires nonbasic { IsNonbasic (tableau (table_of (store_of short.old))) entering }
    requires nonzero { entry (table_of (store_of short.old)) row entering ≢ pos 0 }
    requires narrow { first_large_of (next_form (table_of (store_of short.old)) row entering).rows ≡ None }
    requires same_lead { length lead.old ≡ short.old.width + 2 }
    requires same_scratch { length scratch.old ≡ short.old.width + 2 }
    ensures short { IsShort (store_of short.new) }
    ensures value { table_of (store_of short.new) ≡ next_form (table_of (store_of short.old)) row entering }
    ensures width { short.new.width ≡ short.old.width }
    ensures pairs { (store_of short.new).pairs ≡ (store_of short.old).pairs }
{
    let basic = short.basics[row];
    unpair(short, basic);
    let Place::Column(column) = short.places[entering] else {
        unreachable!();
    };
    match (short.places[basic], short.pairs[basic]) {
        (Place::Kept(slot), _) => pivot_kept(short, row, slot, entering, column, lead, scratch),
        (Place::Paired, Some(pair)) => pivot_pair(
            short, row, pair, entering, column, lead, scratch,
        ),
        _ => unreachable!(),
    }
}
