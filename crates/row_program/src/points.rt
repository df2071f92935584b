// A point at the rows of a program, and its cost.
ghost use Rattle.std.specs.Prelude.{◌≡◌, ℤ, pos, ◌<◌, ◌≤◌, ◌*◌, ◌^◌, ◌*ℤ◌, ◌↔◌, IsTrue, length, unsigned_abs};
ghost use Rattle.std.specs.List.{All};
ghost use Rattle.mov_base.specs.Sums.{sum_z};
ghost use Rattle.row_program.specs.Bounds.{IsRow};
ghost use Rattle.row_program.specs.Points.{IsPoint, row_value, term_value, cost_of};

use crate::{MOST_VARIABLES, Point, Program, Row, TERM_LIMIT, Term};
use exact_num::WIDE;

/// Whether all rows hold at the point.
pub fn holds_at(program: &Program, point: &Point) -> bool
    requires { length point.now.whole ≡ length program.now.costs }
    ensures { IsTrue result ↔ IsPoint program.now point.now.whole point.now.den }
{
    for row in program.rows.as_slice() {
        if value_at(row, point.whole.as_slice(), point.den) < 0 {
            return false;
        }
    }
    true
}

/// What the row says at the values, times their denominator.
fn value_at(row: &Row, whole: &[u64], den: u64) -> i128
    requires row { IsRow (length whole.now) row.now }
    requires few { length whole.now ≤ MOST_VARIABLES }
    requires small { den < WIDE }
    requires small_numbers { All (λ x. x < WIDE) whole.now }
    ensures { result ≡ row_value row.now whole.now den }
{
    scaled(row.constant, den) + terms_sum(row.terms.as_slice(), whole)
}

/// The sum of the terms at the values.
fn terms_sum(terms: &[Term], whole: &[u64]) -> i128
    requires few { length terms.now ≤ MOST_VARIABLES }
    requires small_terms { All (λ t. unsigned_abs t.times < TERM_LIMIT) terms.now }
    requires within { All (λ t. t.variable < length whole.now) terms.now }
    requires small_numbers { All (λ x. x < WIDE) whole.now }
    ensures value { result ≡ sum_z (term_value whole.now) terms.now }
    ensures small { unsigned_abs result ≤ 2 ^ 114 }
{
    let mut sum = 0;
    for term in terms {
        sum += scaled(term.times, whole[term.variable as usize]);
    }
    sum
}

/// The product of a number of 31 bits and one of 63.
fn scaled(times: i64, number: u64) -> i128
    requires times { unsigned_abs times < TERM_LIMIT }
    requires number { number < WIDE }
    ensures value { result ≡ times *ℤ pos number }
    ensures small { unsigned_abs result < 2 ^ 94 }
{
    times as i128 * number as i128
}

/// The sum of the costs times the point's numbers: the point's cost times its denominator.
pub fn point_cost(program: &Program, point: &Point) -> u128
    requires { length point.now.whole ≡ length program.now.costs }
    ensures { result ≡ cost_of program.now.costs point.now.whole }
{
    cost_sum(program.costs.as_slice(), point.whole.as_slice())
}

/// The sum of the products of costs and numbers.
fn cost_sum(costs: &[u8], whole: &[u64]) -> u128
    requires same { length whole.now ≡ length costs.now }
    requires few { length costs.now ≤ MOST_VARIABLES }
    requires small_costs { All (λ c. c ≤ 1) costs.now }
    requires small_numbers { All (λ x. x < WIDE) whole.now }
    ensures { result ≡ cost_of costs.now whole.now }
{
    let mut sum = 0;
    for (i, cost) in costs.iter().enumerate() {
        sum += charged(*cost, whole[i]);
    }
    sum
}

/// The product of a cost and a number of 63 bits.
fn charged(cost: u8, number: u64) -> u128
    requires cost { cost ≤ 1 }
    requires number { number < WIDE }
    ensures value { result ≡ cost * number }
    ensures small { result < WIDE }
{
    cost as u128 * number as u128
}
