// Whole equations of a form kept by slots and pairs.
ghost use Rattle.std.specs.Prelude.{◌≡◌, ◌≢◌, ◌<◌, ◌+◌, ◌<ℤ◌, length, pos, slice_index_or, unsigned_abs, MatchOption, Some, None};
ghost use Rattle.std.specs.List.{All};
ghost use Rattle.row_program.specs.Forms.{eliminated, entry, first_large, first_large_of, next_form, row_of, turned};
ghost use Rattle.pivot_form.specs.Kept.{table_of, variables_of, whole_row};
ghost use Rattle.pivot_form.specs.Shorts.{IsBasic, IsShort, store_of};

use crate::equation::Equation;
use crate::rows::{clear, find_large, turn};
use crate::short::Short;
use exact_num::WIDE;

/// Writes the equation of the basic variable: the entry of each variable, and the right side.
pub(crate) fn write_row(short: &Short, basic: usize, out: &mut [i64])
    requires short { IsShort (store_of short.now) }
    requires basic { IsBasic (store_of short.now) basic }
    requires wide { length out.old ≡ variables_of (store_of short.now) + 1 }
    ensures value { out.new ≡ whole_row (store_of short.now) basic }
    ensures small { All (λ x. unsigned_abs x < WIDE) out.new }
{
    let variables = short.places.len();
    let equation = Equation::new(short, basic);
    for variable in 0..variables {
        out[variable] = equation.entry(variable);
    }
    out[variables] = short.right(basic);
}

/// The size of the first large entry of the next form, in row order, then column order, a right side after its columns.
/// It goes over whole equations, which it writes one after another.
pub(crate) fn first_large(
    short: &Short,
    row: usize,
    column: usize,
    lead: &mut [i64],
    whole: &mut [i64],
    scratch: &mut [i128],
) -> Option<u128>
    requires short { IsShort (store_of short.now) }
    requires row { row < length (store_of short.now).basis }
    requires column { column < variables_of (store_of short.now) }
    requires nonzero { entry (table_of (store_of short.now)) row column ≢ pos 0 }
    requires wide_lead { length lead.old ≡ variables_of (store_of short.now) + 1 }
    requires wide_whole { length whole.old ≡ variables_of (store_of short.now) + 1 }
    requires wide_scratch { length scratch.old ≡ variables_of (store_of short.now) + 1 }
    ensures { MatchOption result
        (first_large_of (next_form (table_of (store_of short.now)) row column).rows ≡ None)
        (λ size. first_large_of (next_form (table_of (store_of short.now)) row column).rows ≡ Some size) }
{
    write_row(short, short.basic(row), whole);
    turn(lead, whole, column);
    find_in_rows(short, row, column, lead, whole, scratch)
}

/// The same, by the equation of the row, turned.
fn find_in_rows(
    short: &Short,
    row: usize,
    column: usize,
    lead: &[i64],
    whole: &mut [i64],
    scratch: &mut [i128],
) -> Option<u128>
    requires short { IsShort (store_of short.now) }
    requires column { column < variables_of (store_of short.now) }
    requires lead { lead.now ≡ turned column (row_of (table_of (store_of short.now)) row) }
    requires small_lead { All (λ x. unsigned_abs x < WIDE) lead.now }
    requires positive { pos 0 <ℤ slice_index_or lead.now column (pos 0) }
    requires wide_lead { length lead.now ≡ variables_of (store_of short.now) + 1 }
    requires wide_whole { length whole.old ≡ variables_of (store_of short.now) + 1 }
    requires wide_scratch { length scratch.old ≡ variables_of (store_of short.now) + 1 }
    ensures { MatchOption result
        (first_large_of (next_form (table_of (store_of short.now)) row column).rows ≡ None)
        (λ size. first_large_of (next_form (table_of (store_of short.now)) row column).rows ≡ Some size) }
{
    for i in 0..short.row_count() {
        if i != row {
            let large = find_cleared(short, short.basic(i), column, lead, whole, scratch);
            if large.is_some() {
                return large;
            }
        }
    }
    None
}

/// The size of the first large entry of the basic variable's equation, cleared in the column by the lead. An equation
/// that is cleared already stays, and has none.
fn find_cleared(
    short: &Short,
    basic: usize,
    column: usize,
    lead: &[i64],
    whole: &mut [i64],
    scratch: &mut [i128],
) -> Option<u128>
    requires short { IsShort (store_of short.now) }
    requires basic { IsBasic (store_of short.now) basic }
    requires column { column < variables_of (store_of short.now) }
    requires small_lead { All (λ x. unsigned_abs x < WIDE) lead.now }
    requires positive { pos 0 <ℤ slice_index_or lead.now column (pos 0) }
    requires wide_lead { length lead.now ≡ variables_of (store_of short.now) + 1 }
    requires wide_whole { length whole.old ≡ variables_of (store_of short.now) + 1 }
    requires wide_scratch { length scratch.old ≡ variables_of (store_of short.now) + 1 }
    ensures { result ≡ first_large (eliminated column (whole_row (store_of short.now) basic) lead.now) }
{
    write_row(short, basic, whole);
    if whole[column] == 0 {
        None
    } else {
        clear(scratch, whole, lead, column);
        find_large(scratch)
    }
}
