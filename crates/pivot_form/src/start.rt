// The first form of a program, by slots and pairs.
ghost use Rattle.std.specs.Prelude.{◌≡◌, ◌≢◌, ◌<◌, ◌≤◌, ◌+◌, ℕ, pos, unsigned_abs, length, IfOk, map, slice_index, slice_index_or, None};
ghost use lib.IntN.{neg_ℤ};
ghost use Rattle.std.specs.List.{All, AllPairs, range_with_len};
ghost use Rattle.row_program.specs.Bounds.{IsRow};
ghost use Rattle.row_program.specs.Forms.{coefficient, first_basic, first_form};
ghost use Rattle.pivot_form.specs.Invariant.{row_lists};
ghost use Rattle.pivot_form.specs.Kept.{table_of};
ghost use Rattle.pivot_form.specs.Shorts.{IsShort, store_of};
ghost use Rattle.pivot_form.specs.Starts.{AreFirstRows, ArePairs, first_place};

use crate::pairs::pairs_of;
use crate::places::{Pair, Place};
use crate::room::{emptied, zeros};
use crate::rows::opposite;
use crate::short::Short;
use mov_base::Memory;
use row_program::{MOST_ROWS, MOST_VARIABLES, Program, Row, TERM_LIMIT, Term};
use std::alloc::Global;

/// What is kept of the first form of a program, in the memory of what was kept of another and of the spare rows. It
/// takes the memory for all later forms.
pub(crate) fn first_short(
    alloc: Global,
    program: &Program,
    room: Short,
    spare: &mut Vec<Vec<i64>>,
) -> Result<Short, Memory>
    ensures value { IfOk result (λ short. table_of (store_of short) ≡ first_form program.now) }
    ensures short { IfOk result (λ short. IsShort (store_of short)) }
{
    let width = program.costs.len();
    let mut rows = room.rows;
    spare.append(&mut rows)?;
    let basics = first_basics(room.basics, width, program.rows.len())?;
    let pairs = pairs_of(room.pairs, program)?;
    let places = places_of(room.places, width, pairs.as_slice())?;
    let rows = short_rows(alloc, program, pairs.as_slice(), rows, spare)?;
    Ok(Short {
        width,
        basics,
        places,
        pairs,
        rows,
    })
}

/// The basic variables of the first form, in place of what the vector held: the cost, and the slacks in order.
fn first_basics(basics: Vec<usize>, variables: usize, rows: usize) -> Result<Vec<usize>, Memory>
    requires few_variables { variables ≤ MOST_VARIABLES }
    requires few_rows { rows ≤ MOST_ROWS }
    ensures { IfOk result (λ basics. basics.items ≡ map (first_basic variables) (range_with_len 0 (rows + 1))) }
{
    let mut basics = emptied(basics, rows + 1)?;
    basics.push(0)?;
    for i in 0..rows {
        basics.push(1 + variables + i)?;
    }
    Ok(basics)
}

/// Where each variable stands: the cost in the first slot, the program's variables in their columns, and each slack that is
/// no pair's in a slot of its own. They take the place of what the vector held.
fn places_of(
    places: Vec<Place>,
    variables: usize,
    pairs: &[Option<Pair>],
) -> Result<Vec<Place>, Memory>
    requires wide { variables < length pairs.now }
    requires cost { slice_index_or pairs.now 0 None ≡ None }
    ensures { IfOk result (λ places.
        places.items ≡ map (first_place variables pairs.now) (range_with_len 0 (length pairs.now))) }
{
    let mut places = emptied(places, pairs.len())?;
    places.push(Place::Kept(0))?;
    for column in 0..variables {
        places.push(Place::Column(column))?;
    }
    let mut slot = 1;
    for pair in &pairs[1 + variables..] {
        if pair.is_none() {
            places.push(Place::Kept(slot))?;
            slot += 1;
        } else {
            places.push(Place::Paired)?;
        }
    }
    Ok(places)
}

/// What the slots keep, in place of what the vector held: the equation of the cost, and that of each row that is no
/// pair's.
fn short_rows(
    alloc: Global,
    program: &Program,
    pairs: &[Option<Pair>],
    rows: Vec<Vec<i64>>,
    spare: &mut Vec<Vec<i64>>,
) -> Result<Vec<Vec<i64>>, Memory>
    requires pairs { ArePairs (length program.now.costs) program.now.rows (length program.now.rows) pairs.now }
    ensures { IfOk result (λ rows.
        AreFirstRows program.now pairs.now (length program.now.rows + 1) (row_lists rows.items)) }
{
    let variables = program.costs.len();
    let mut rows = emptied(rows, 1 + program.rows.len())?;
    rows.push(short_cost(alloc, program.costs.as_slice(), spare)?)?;
    for (i, row) in program.rows.as_slice().iter().enumerate() {
        if pairs[1 + variables + i].is_none() {
            rows.push(short_row(alloc, row, variables, spare)?)?;
        }
    }
    Ok(rows)
}

/// The equation of the cost.
fn short_cost(alloc: Global, costs: &[u8], spare: &mut Vec<Vec<i64>>) -> Result<Vec<i64>, Memory>
    requires { length costs.now ≤ MOST_VARIABLES }
    ensures width { IfOk result (λ row. length row.items ≡ length costs.now + 2) }
    ensures columns { IfOk result (λ row. (v : ℕ) → v < length costs.now →
        slice_index_or row.items v (pos 0) ≡ neg_ℤ (pos (slice_index costs.now v))) }
    ensures own { IfOk result (λ row. slice_index_or row.items (length costs.now) (pos 0) ≡ pos 1) }
    ensures right { IfOk result (λ row. slice_index_or row.items (length costs.now + 1) (pos 0) ≡ pos 0) }
{
    let mut made = zeros(alloc, spare, costs.len() + 2)?;
    made[costs.len()] = 1;
    write_costs(made.as_mut_slice(), costs);
    Ok(made)
}

/// Writes the costs, turned, before the rest.
fn write_costs(row: &mut [i64], costs: &[u8])
    requires wide { length costs.now < length row.old }
    ensures written { (v : ℕ) → v < length costs.now →
        slice_index_or row.new v (pos 0) ≡ neg_ℤ (pos (slice_index costs.now v)) }
    ensures rest { (k : ℕ) → length costs.now ≤ k
        → slice_index_or row.new k (pos 0) ≡ slice_index_or row.old k (pos 0) }
{
    for (v, cost) in costs.iter().enumerate() {
        row[v] = -(*cost as i64);
    }
}

/// The equation of the row, over so many variables.
fn short_row(
    alloc: Global,
    row: &Row,
    variables: usize,
    spare: &mut Vec<Vec<i64>>,
) -> Result<Vec<i64>, Memory>
    requires good { IsRow variables row.now }
    requires few_variables { variables ≤ MOST_VARIABLES }
    ensures width { IfOk result (λ made. length made.items ≡ variables + 2) }
    ensures columns { IfOk result (λ made. (v : ℕ) → v < variables →
        slice_index_or made.items v (pos 0) ≡ neg_ℤ (coefficient row.now.terms v)) }
    ensures own { IfOk result (λ made. slice_index_or made.items variables (pos 0) ≡ pos 1) }
    ensures right { IfOk result (λ made. slice_index_or made.items (variables + 1) (pos 0) ≡ row.now.constant) }
{
    let mut made = zeros(alloc, spare, variables + 2)?;
    made[variables] = 1;
    made[variables + 1] = row.constant;
    write_terms(made.as_mut_slice(), row.terms.as_slice(), variables);
    Ok(made)
}

/// Writes the coefficients of the variables, turned, before the rest. They are 0 before.
fn write_terms(row: &mut [i64], terms: &[Term], variables: usize)
    requires wide { variables < length row.old }
    requires small_terms { All (λ t. unsigned_abs t.times < TERM_LIMIT) terms.now }
    requires within { All (λ t. t.variable < variables) terms.now }
    requires one_each { AllPairs (λ s t. s.variable ≢ t.variable) terms.now }
    requires zeros { (v : ℕ) → v < variables → slice_index_or row.old v (pos 0) ≡ pos 0 }
    ensures written { (v : ℕ) → v < variables →
        slice_index_or row.new v (pos 0) ≡ neg_ℤ (coefficient terms.now v) }
    ensures rest { (k : ℕ) → variables ≤ k → slice_index_or row.new k (pos 0) ≡ slice_index_or row.old k (pos 0) }
{
    for term in terms {
        row[term.variable as usize] = opposite(term.times);
    }
}
