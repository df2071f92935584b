// The multipliers of the kept rows.
ghost use Rattle.std.specs.Prelude.{◌≡◌, ◌<◌, ◌+◌, ◌/◌, length, map, All, IfOk, unsigned_abs};
ghost use Rattle.row_program.specs.Forms.{entry, variable_count};
ghost use Rattle.pivot_form.specs.Invariant.{IsForm};
ghost use Rattle.dual_theory.specs.Multipliers.{multipliers_of, slack_sizes, lowest, divisor_of};

use bound_tree::Multipliers;
use exact_num::{WIDE, gcd};
use mov_base::Memory;
use pivot_form::Form;
use row_program::Program;
use std::alloc::Global;

/// The sizes of the entries of the kept rows' slacks in the row, divided by their greatest common divisor.
pub(crate) fn multipliers(
    alloc: Global,
    program: &Program,
    form: &Form,
    row: usize,
) -> Result<Multipliers, Memory>
    requires form { IsForm form.now }
    requires variables { form.now.variables ≡ variable_count program.now }
    requires row { row < length form.now.rows }
    ensures { IfOk result (λ multipliers. multipliers ≡ multipliers_of program.now form.now row) }
{
    let mut numbers = sizes(alloc, program, form, row)?;
    reduce(numbers.as_mut_slice());
    Ok(Multipliers::from_vec(numbers))
}

/// The sizes of the entries of the kept rows' slacks in the row.
fn sizes(alloc: Global, program: &Program, form: &Form, row: usize) -> Result<Vec<u64>, Memory>
    requires form { IsForm form.now }
    requires variables { form.now.variables ≡ variable_count program.now }
    requires row { row < length form.now.rows }
    ensures value { IfOk result (λ numbers. numbers.items ≡ slack_sizes program.now form.now row) }
    ensures small { IfOk result (λ numbers. All (λ x. x < WIDE) numbers.items) }
{
    let variables = program.costs.len();
    let mut numbers = Vec::with_capacity(alloc, program.kept)?;
    for i in 0..program.kept {
        numbers.push(size_at(form, row, 1 + variables + i))?;
    }
    Ok(numbers)
}

/// The size of an entry.
fn size_at(form: &Form, row: usize, column: usize) -> u64
    requires form { IsForm form.now }
    requires row { row < length form.now.rows }
    requires column { column < form.now.variables }
    ensures value { result ≡ unsigned_abs (entry form.now row column) }
    ensures small { result < WIDE }
{
    form.entry(row, column).unsigned_abs()
}

/// Divides numbers by their greatest common divisor. Zeros stay.
fn reduce(numbers: &mut [u64])
    requires { All (λ x. x < WIDE) numbers.old }
    ensures value { numbers.new ≡ lowest numbers.old }
    ensures small { All (λ x. x < WIDE) numbers.new }
{
    let divisor = divisor(numbers);
    if divisor > 0 {
        divide(numbers, divisor);
    }
}

/// The greatest common divisor of numbers, 0 where all are 0.
fn divisor(numbers: &[u64]) -> u64
    ensures { result ≡ divisor_of numbers.now }
{
    let mut divisor = 0;
    for x in numbers {
        divisor = gcd(divisor as u128, *x as u128) as u64;
    }
    divisor
}

/// Divides each number.
fn divide(numbers: &mut [u64], divisor: u64)
    requires { 0 < divisor }
    ensures { numbers.new ≡ map (λ x. x / divisor) numbers.old }
{
    for x in numbers.iter_mut() {
        *x /= divisor;
    }
}
