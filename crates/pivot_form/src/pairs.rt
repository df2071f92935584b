// The pairs of a program's variables and slacks.
ghost use Rattle.std.specs.Prelude.{◌≡◌, ◌<◌, length, IfOk, IfSome};
ghost use Rattle.pivot_form.specs.Shorts.{AreSumsUpTo};
ghost use Rattle.pivot_form.specs.Starts.{ArePairs, IsClassRow, paired_up};

use crate::places::Pair;
use crate::room::filled;
use mov_base::Memory;
use row_program::{Program, Row};

/// For each variable and each slack its pair, if it has one. A row is a pair's that says of a variable alone that it is at
/// most a number of 0 or more, if it is the first one for that variable and no kept row. They take the place of what the
/// vector held.
pub(crate) fn pairs_of(
    pairs: Vec<Option<Pair>>,
    program: &Program,
) -> Result<Vec<Option<Pair>>, Memory>
    ensures { IfOk result (λ pairs.
        ArePairs (length program.now.costs) program.now.rows (length program.now.rows) pairs.items) }
{
    let variables = program.costs.len();
    let mut pairs = filled(pairs, None, 1 + variables + program.rows.len())?;
    for (i, row) in program.rows.as_slice().iter().enumerate() {
        if i >= program.kept
            && let Some(variable) = class_variable(row)
        {
            pair_up(
                pairs.as_mut_slice(),
                1 + variable as usize,
                1 + variables + i,
                row.constant,
            );
        }
    }
    Ok(pairs)
}

/// The variable of which the row alone says that it is at most a number of 0 or more.
fn class_variable(row: &Row) -> Option<u32>
    ensures { IfSome result (λ variable. IsClassRow row.now variable) }
{
    match row.terms.as_slice() {
        [term] if term.times == -1 && row.constant >= 0 => Some(term.variable),
        _ => None,
    }
}

/// Makes the two a pair, if the variable has none.
fn pair_up(pairs: &mut [Option<Pair>], variable: usize, slack: usize, sum: i64)
    requires variable { variable < length pairs.old }
    requires slack { slack < length pairs.old }
    ensures { pairs.new ≡ paired_up pairs.old variable slack sum }
{
    if pairs[variable].is_none() {
        pairs[variable] = Some(Pair { other: slack, sum });
        pairs[slack] = Some(Pair {
            other: variable,
            sum,
        });
    }
}

/// The greatest size of a pair's sum.
pub(crate) fn most_sum(pairs: &[Option<Pair>]) -> u64
    ensures { AreSumsUpTo result pairs.now }
{
    let mut most = 0;
    for pair in pairs {
        if let Some(pair) = pair {
            most = most.max(pair.sum.unsigned_abs());
        }
    }
    most
}
