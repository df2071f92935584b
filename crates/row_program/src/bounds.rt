// The test of a program's bounds.
ghost use Rattle.std.specs.Prelude.{◌≢◌, ◌<◌, ◌≤◌, ◌↔◌, IsTrue, unsigned_abs};
ghost use Rattle.std.specs.List.{All, AllPairs};
ghost use Rattle.row_program.specs.Bounds.{IsProgram, IsRow};

use crate::{CostList, MOST_ROWS, MOST_VARIABLES, Row, RowList, TERM_LIMIT, Term};

/// Whether costs, rows and the number of kept rows make a program. It compares each two terms of a row.
pub fn is_program(costs: &CostList, rows: &RowList, kept: usize) -> bool
    ensures { IsTrue result ↔ IsProgram costs.now rows.now kept }
{
    costs.len() <= MOST_VARIABLES
        && rows.len() <= MOST_ROWS
        && kept <= rows.len()
        && all_small_costs(costs.as_slice())
        && all_rows(rows.as_slice(), costs.len())
}

/// Whether all costs are 0 or 1.
fn all_small_costs(costs: &[u8]) -> bool
    ensures { IsTrue result ↔ All (λ c. c ≤ 1) costs.now }
{
    costs.iter().all(|c| *c <= 1)
}

/// Whether all are rows over so many variables.
fn all_rows(rows: &[Row], variables: usize) -> bool
    ensures { IsTrue result ↔ All (IsRow variables) rows.now }
{
    for row in rows {
        if !is_row(row, variables) {
            return false;
        }
    }
    true
}

/// Whether it is a row over so many variables.
fn is_row(row: &Row, variables: usize) -> bool
    ensures { IsTrue result ↔ IsRow variables row.now }
{
    is_small(row.constant)
        && all_small_terms(row.terms.as_slice())
        && all_within(row.terms.as_slice(), variables)
        && all_apart(row.terms.as_slice())
}

/// Whether a number is small enough for a row.
fn is_small(x: i64) -> bool
    ensures { IsTrue result ↔ (unsigned_abs x < TERM_LIMIT) }
{
    x.unsigned_abs() < TERM_LIMIT
}

/// Whether all terms are small.
fn all_small_terms(terms: &[Term]) -> bool
    ensures { IsTrue result ↔ All (λ t. unsigned_abs t.times < TERM_LIMIT) terms.now }
{
    terms.iter().all(|t| is_small(t.times))
}

/// Whether each term has one of so many variables.
fn all_within(terms: &[Term], variables: usize) -> bool
    ensures { IsTrue result ↔ All (λ t. t.variable < variables) terms.now }
{
    terms.iter().all(|t| (t.variable as usize) < variables)
}

/// Whether no two terms have the same variable.
fn all_apart(terms: &[Term]) -> bool
    ensures { IsTrue result ↔ AllPairs (λ s t. s.variable ≢ t.variable) terms.now }
{
    for (i, term) in terms.iter().enumerate() {
        if !lacks_variable(&terms[..i], term.variable) {
            return false;
        }
    }
    true
}

/// Whether no term has the variable.
fn lacks_variable(terms: &[Term], variable: u32) -> bool
    ensures { IsTrue result ↔ All (λ t. t.variable ≢ variable) terms.now }
{
    terms.iter().all(|t| t.variable != variable)
}
