// Forms, the first of them, and their pivots.
ghost use Rattle.std.specs.Prelude.{◌≡◌, ◌≢◌, ◌<◌, ◌+◌, ℕ, ℤ, pos, ◌↔◌, length, MatchOption, MatchResult, IfOk, IfSome, OnOk, IsTrue, Some, None, slice_index};
ghost use Rattle.row_program.specs.Forms.{entry, right_side, row_of, basic_of, tableau, first_form, next_form, first_large_of, Holds, IsNonbasic, IsSolved, IsReduced};
ghost use Rattle.pivot_form.specs.Kept.{table_of, variables_of};
ghost use Rattle.pivot_form.specs.Shorts.{AreSumsUpTo, IsShort, store_of};

use crate::equation::Equation;
use crate::exchanges::{pivot, unpair};
use crate::narrow::surely_narrow;
use crate::pairs::most_sum;
use crate::places::Place;
use crate::room::{Room, filled};
use crate::short::Short;
use crate::start::first_short;
use crate::whole_rows::first_large;
use mov_base::Memory;
use row_program::Program;
use std::alloc::Global;
use std::marker::Model;

/// An entry of a form has 63 bits or more.
#[derive(Debug, Drop)]
pub struct Wide {
    /// The size of the first such entry.
    pub size: u128,
}

/// Equations with whole entries, each solved for its basic variable. What says nothing isn't kept: the entries of basic
/// variables, and the equations of two variables that always add up to the same number.
#[derive(Debug, Drop)]
pub struct Form {
    short: Short,
    most_sum: u64,
    spare: Vec<Vec<i64>>,
    lead: Vec<i64>,
    scratch: Vec<i128>,
    whole_lead: Vec<i64>,
    whole_row: Vec<i64>,
    whole_scratch: Vec<i128>,
}

impl Model for Form {
    ghost use Rattle.std.specs.Prelude.{◌≡◌, ◌+◌, length};
    ghost use Rattle.row_program.specs.Forms.{Table};
    ghost use Rattle.pivot_form.specs.Kept.{table_of, variables_of};
    ghost use Rattle.pivot_form.specs.Shorts.{AreSumsUpTo, IsShort, store_of};

    ghost Value = { Table };

    ghost view = { λ f. table_of (store_of f.short) };

    ghost invariant = { λ f.
        IsShort (store_of f.short)
        × AreSumsUpTo f.most_sum f.short.pairs.items
        × (length f.lead.items ≡ f.short.width + 2)
        × (length f.scratch.items ≡ f.short.width + 2)
        × (length f.whole_lead.items ≡ variables_of (store_of f.short) + 1)
        × (length f.whole_row.items ≡ variables_of (store_of f.short) + 1)
        × (length f.whole_scratch.items ≡ variables_of (store_of f.short) + 1) };
}

impl Form {
    /// The first form of a program. It takes the memory of all later pivots.
    pub fn start(alloc: Global, program: &Program) -> Result<Form, Memory>
        ensures value { IfOk result (λ form. form ≡ first_form program.now) }
        ensures solved { IfOk result (λ form. IsSolved (tableau form)) }
        ensures reduced { IfOk result IsReduced }
        ensures narrow { IfOk result (λ form. first_large_of form.rows ≡ None) }
    {
        Form::start_in(alloc, program, Room::new(alloc))
    }

    /// The same in the memory of another form, which may be of another program. Of forms of one size, one in the memory
    /// of the other, the third and later ones take no more.
    pub fn start_in(alloc: Global, program: &Program, room: Room) -> Result<Form, Memory>
        ensures value { IfOk result (λ form. form ≡ first_form program.now) }
        ensures solved { IfOk result (λ form. IsSolved (tableau form)) }
        ensures reduced { IfOk result IsReduced }
        ensures narrow { IfOk result (λ form. first_large_of form.rows ≡ None) }
    {
        let mut spare = room.spare;
        let short = first_short(alloc, program, room.short, &mut spare)?;
        let most_sum = most_sum(short.pairs.as_slice());
        let width = short.width + 2;
        let whole = short.places.len() + 1;
        Ok(Form {
            short,
            most_sum,
            spare,
            lead: filled(room.lead, 0, width)?,
            scratch: filled(room.scratch, 0, width)?,
            whole_lead: filled(room.whole_lead, 0, whole)?,
            whole_row: filled(room.whole_row, 0, whole)?,
            whole_scratch: filled(room.whole_scratch, 0, whole)?,
        })
    }

    /// The form's memory, for another form.
    pub fn into_room(self) -> Room {
        Room {
            short: self.short,
            spare: self.spare,
            lead: self.lead,
            scratch: self.scratch,
            whole_lead: self.whole_lead,
            whole_row: self.whole_row,
            whole_scratch: self.whole_scratch,
        }
    }

    /// How many equations the form has.
    pub fn row_count(&self) -> usize
        ensures { result ≡ length self.now.rows }
    {
        self.short.row_count()
    }

    /// How many variables the form has.
    pub fn variable_count(&self) -> usize
        ensures { result ≡ self.now.variables }
    {
        self.short.places.len()
    }

    /// The basic variable of the equation in the row.
    pub fn basic(&self, row: usize) -> usize
        requires { row < length self.now.rows }
        ensures { result ≡ basic_of self.now row }
    {
        self.short.basic(row)
    }

    /// The equation of the row, for reading many of its entries.
    pub fn equation(&self, row: usize) -> Equation<'_>
        requires { row < length self.now.rows }
        ensures value { result ≡ row_of self.now row }
        ensures wide { length result ≡ self.now.variables + 1 }
    {
        Equation::new(&self.short, self.short.basic(row))
    }

    /// The entry of the variable with the column's number in the row.
    pub fn entry(&self, row: usize, column: usize) -> i64
        requires row { row < length self.now.rows }
        requires column { column < self.now.variables }
        ensures { result ≡ entry self.now row column }
    {
        self.equation(row).entry(column)
    }

    /// The one variable besides the basic one that the equation of the row has, where that is told at once: it is so of an
    /// equation that says that the two add up to a number.
    pub fn lone(&self, row: usize) -> Option<usize>
        requires { row < length self.now.rows }
        ensures { IfSome result (λ other. (column : ℕ) → column < self.now.variables
            → column ≢ basic_of self.now row → column ≢ other → entry self.now row column ≡ pos 0) }
    {
        self.short.lone(self.short.basic(row))
    }

    /// The right side of the row.
    pub fn right(&self, row: usize) -> i64
        requires { row < length self.now.rows }
        ensures { result ≡ right_side self.now row }
    {
        self.short.right(self.short.basic(row))
    }

    /// The next form: the variable of the column becomes basic in the row. Where an entry of it would be large, the answer
    /// is the size of the first one, in row order, then column order, a right side after its columns. It takes no memory.
    pub fn pivot(mut self, row: usize, column: usize) -> Result<Form, Wide>
        requires row { row < length self.rows }
        requires column { column < self.variables }
        requires not_cost { basic_of self row ≢ 0 }
        requires nonbasic { IsNonbasic (tableau self) column }
        requires nonzero { entry self row column ≢ pos 0 }
        ensures value { MatchResult result (λ form. form ≡ next_form self row column)
            (λ e. first_large_of (next_form self row column).rows ≡ Some e.size) }
        ensures narrow { OnOk result (first_large_of (next_form self row column).rows ≡ None) }
        ensures solutions { (y : ℕ → ℤ) (d : ℤ) →
            Holds (tableau (next_form self row column)) y d ↔ Holds (tableau self) y d }
        ensures solved { IsSolved (tableau (next_form self row column)) }
        ensures reduced { IsReduced (next_form self row column) }
    {
        let basic = self.short.basic(row);
        unpair(&mut self.short, basic);
        let large = find_large(
            &self.short,
            row,
            column,
            self.most_sum,
            self.whole_lead.as_mut_slice(),
            self.whole_row.as_mut_slice(),
            self.whole_scratch.as_mut_slice(),
        );
        if let Some(size) = large {
            return Err(Wide { size });
        }
        pivot(
            &mut self.short,
            row,
            column,
            self.lead.as_mut_slice(),
            self.scratch.as_mut_slice(),
        );
        Ok(self)
    }
}

/// Whether a bound on the entries shows that the next form is narrow.
fn is_shown_narrow(short: &Short, row: usize, entering: usize, most_sum: u64) -> bool
    requires short { IsShort (store_of short.now) }
    requires sums { AreSumsUpTo most_sum (store_of short.now).pairs }
    requires row { row < length (store_of short.now).basis }
    requires entering { entering < variables_of (store_of short.now) }
    requires nonzero { entry (table_of (store_of short.now)) row entering ≢ pos 0 }
    ensures { IsTrue result
        → first_large_of (next_form (table_of (store_of short.now)) row entering).rows ≡ None }
{
    match (short.places[short.basic(row)], short.places[entering]) {
        (Place::Kept(slot), Place::Column(column)) => surely_narrow(
            short, slot, row, entering, column, most_sum,
        ),
        _ => false,
    }
}

/// The size of the first large entry of the next form, if it has one.
fn find_large(
    short: &Short,
    row: usize,
    entering: usize,
    most_sum: u64,
    lead: &mut [i64],
    whole: &mut [i64],
    scratch: &mut [i128],
) -> Option<u128>
    requires short { IsShort (store_of short.now) }
    requires sums { AreSumsUpTo most_sum (store_of short.now).pairs }
    requires row { row < length (store_of short.now).basis }
    requires entering { entering < variables_of (store_of short.now) }
    requires nonzero { entry (table_of (store_of short.now)) row entering ≢ pos 0 }
    requires wide_lead { length lead.old ≡ variables_of (store_of short.now) + 1 }
    requires wide_whole { length whole.old ≡ variables_of (store_of short.now) + 1 }
    requires wide_scratch { length scratch.old ≡ variables_of (store_of short.now) + 1 }
    ensures { MatchOption result
        (first_large_of (next_form (table_of (store_of short.now)) row entering).rows ≡ None)
        (λ size. first_large_of (next_form (table_of (store_of short.now)) row entering).rows ≡ Some size) }
{
    if is_shown_narrow(short, row, entering, most_sum) {
        None
    } else {
        first_large(short, row, entering, lead, whole, scratch)
    }
}
