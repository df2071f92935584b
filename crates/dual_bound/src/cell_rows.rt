// The rows of a program at whole values.
ghost use Rattle.std.specs.Prelude.{◌≡◌, ◌<◌, ◌≤◌, ◌^◌, All, length, pos, unsigned_abs, ◌*ℤ◌};
ghost use Rattle.std.specs.List.{position};
ghost use Rattle.mov_base.specs.Sums.{sum_z};
ghost use Rattle.ballot_form.specs.declared.limits.TheConstants.{MOST_BALLOTS};
ghost use Rattle.row_program.specs.Bounds.{IsRow};
ghost use Rattle.row_program.specs.Points.{row_value, term_value};
ghost use Rattle.row_program.specs.declared.limits.TheConstants.{MOST_VARIABLES, TERM_LIMIT};
ghost use Rattle.dual_bound.specs.CellCuts.{is_broken};

use row_program::{Row, Term};

/// The number of the first row that is below 0 at these values.
pub(crate) fn first_broken(rows: &[Row], values: &[u64]) -> Option<usize>
    requires rows { All (IsRow (length values.now)) rows.now }
    requires few { length values.now ≤ MOST_VARIABLES }
    requires small { All (λ value. value ≤ MOST_BALLOTS) values.now }
    ensures { result ≡ position (is_broken values.now) rows.now }
{
    for (r, row) in rows.iter().enumerate() {
        if value_at(row, values) < 0 {
            return Some(r);
        }
    }
    None
}

/// What the row says at the values.
fn value_at(row: &Row, values: &[u64]) -> i128
    requires row { IsRow (length values.now) row.now }
    requires few { length values.now ≤ MOST_VARIABLES }
    requires small { All (λ value. value ≤ MOST_BALLOTS) values.now }
    ensures { result ≡ row_value row.now values.now 1 }
{
    i128::from(row.constant) + terms_sum(row.terms.as_slice(), values)
}

/// The sum of the terms at the values.
fn terms_sum(terms: &[Term], values: &[u64]) -> i128
    requires few { length terms.now ≤ MOST_VARIABLES }
    requires small_terms { All (λ t. unsigned_abs t.times < TERM_LIMIT) terms.now }
    requires within { All (λ t. t.variable < length values.now) terms.now }
    requires small { All (λ value. value ≤ MOST_BALLOTS) values.now }
    ensures value { result ≡ sum_z (term_value values.now) terms.now }
    ensures small { unsigned_abs result ≤ 2 ^ 72 }
{
    let mut sum = 0;
    for term in terms {
        sum += scaled(term.times, values[term.variable as usize]);
    }
    sum
}

/// The product of a number of 31 bits and one of 20.
fn scaled(times: i64, number: u64) -> i128
    requires times { unsigned_abs times < TERM_LIMIT }
    requires number { number ≤ MOST_BALLOTS }
    ensures value { result ≡ times *ℤ pos number }
    ensures small { unsigned_abs result < 2 ^ 51 }
{
    i128::from(times) * i128::from(number)
}
