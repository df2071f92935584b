// Programs as the tests write them down.
//
// A row is its constant and then the coefficient of each variable, with spaces between them; rows have commas between them.
use mov_base::List;
use row_program::{CostList, Program, Row, RowList, Term, is_program};
use std::alloc::Global;
use std::test::Fail;

/// The numbers of a text, with spaces between them.
pub(crate) fn numbers(alloc: Global, text: &str) -> Result<Vec<i64>, Fail> {
    let mut made = Vec::new(alloc);
    for word in text.split(' ') {
        if !word.is_empty() {
            made.push(word.parse::<i64>().ok().ok_or("no number")?)?;
        }
    }
    Ok(made)
}

/// The row of a constant and coefficients.
pub(crate) fn row_of(alloc: Global, numbers: &[i64]) -> Result<Row, Fail> {
    let (constant, coefficients) = numbers.split_first().ok_or("no constant")?;
    let mut terms = List::new(alloc);
    let mut variable = 0;
    for times in coefficients {
        if *times != 0 {
            terms.push(Term {
                variable,
                times: *times,
            })?;
        }
        variable = variable.wrapping_add(1);
    }
    Ok(Row {
        constant: *constant,
        terms,
    })
}

/// Adds the rows of a text.
pub(crate) fn push_rows(alloc: Global, rows: &mut RowList, text: &str) -> Result<(), Fail> {
    for part in text.split(',') {
        let numbers = numbers(alloc, part)?;
        if !numbers.is_empty() {
            rows.push(row_of(alloc, numbers.as_slice())?)?;
        }
    }
    Ok(())
}

/// The costs of a text.
pub(crate) fn costs_of(alloc: Global, text: &str) -> Result<CostList, Fail> {
    let mut made = List::new(alloc);
    for cost in numbers(alloc, text)?.iter() {
        made.push(u8::try_from(*cost).ok().ok_or("no cost")?)?;
    }
    Ok(made)
}

/// The program of these costs and rows, the first of which are kept.
pub(crate) fn program(costs: CostList, rows: RowList, kept: usize) -> Result<Program, Fail> {
    if is_program(&costs, &rows, kept) {
        Ok(Program { costs, rows, kept })
    } else {
        Err(Fail::from("no program"))
    }
}

/// The program of the costs and rows of texts, all of which are kept.
pub(crate) fn program_of(alloc: Global, costs: &str, kept: &str) -> Result<Program, Fail> {
    let mut rows = List::new(alloc);
    push_rows(alloc, &mut rows, kept)?;
    let count = rows.len();
    program(costs_of(alloc, costs)?, rows, count)
}
