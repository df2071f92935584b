// Three small programs, walked pivot by pivot, and a program whose numbers grow too large.
ghost use Rattle.std.specs.Prelude.{◌↔◌, IsTrue};
ghost use Rattle.row_program.specs.Forms.{tableau, IsNonbasic};

use crate::programs::program_of;
use pivot_form::{Form, Wide};
use std::alloc::Global;
use std::process::Abort;
use std::test::Fail;

fn is_nonbasic(form: &Form, column: usize) -> bool
    ensures { IsTrue result ↔ IsNonbasic (tableau form.now) column }
{
    for i in 0..form.row_count() {
        if form.basic(i) == column {
            return false;
        }
    }
    true
}

/// The next form, where the conditions of a pivot hold.
fn pivot(rt: &impl Abort, form: Form, row: usize, column: usize) -> Result<Form, Wide> {
    assert!(rt; row < form.row_count());
    assert!(rt; column < form.variable_count());
    assert_ne!(rt; form.basic(row), 0);
    assert!(rt; is_nonbasic(&form, column));
    assert_ne!(rt; form.entry(row, column), 0);
    form.pivot(row, column)
}

/// The row has these entries and then the right side, and this basic variable.
fn shows(rt: &impl Abort, form: &Form, row: usize, basic: usize, numbers: &[i64]) {
    assert!(rt; row < form.row_count());
    assert_eq!(rt; form.basic(row), basic);
    let count = form.variable_count();
    assert!(rt; count < numbers.len());
    for j in 0..count {
        assert_eq!(rt; form.entry(row, j), numbers[j]);
    }
    assert_eq!(rt; form.right(row), numbers[count]);
    assert_eq!(rt; numbers.len() - 1, count);
}

/// The first form of the costs and rows of texts.
fn first_form(alloc: Global, costs: &str, rows: &str) -> Result<Form, Fail> {
    Ok(Form::start(alloc, &program_of(alloc, costs, rows)?)?)
}

/// The rows -1 + 2f and 1 + 10m - 2f, of the variables m (cost 1) and f (cost 0).
fn walk_of_two_rows(rt: &impl Abort, alloc: Global) -> Result<(), Fail> {
    let form = first_form(alloc, "1 0", "-1 0 2, 1 10 -2")?;
    shows(rt, &form, 0, 0, &[1, -1, 0, 0, 0, 0]);
    shows(rt, &form, 1, 3, &[0, 0, -2, 1, 0, -1]);
    shows(rt, &form, 2, 4, &[0, -10, 2, 0, 1, 1]);
    let form = pivot(rt, form, 1, 2)?;
    shows(rt, &form, 0, 0, &[1, -1, 0, 0, 0, 0]);
    shows(rt, &form, 1, 2, &[0, 0, 2, -1, 0, 1]);
    shows(rt, &form, 2, 4, &[0, -10, 0, 1, 1, 0]);
    Ok(())
}

/// With the row -f.
fn walk_to_no_point(rt: &impl Abort, alloc: Global) -> Result<(), Fail> {
    let form = first_form(alloc, "1 0", "-1 0 2, 1 10 -2, 0 0 -1")?;
    shows(rt, &form, 3, 5, &[0, 0, 1, 0, 0, 1, 0]);
    let form = pivot(rt, form, 1, 2)?;
    shows(rt, &form, 2, 4, &[0, -10, 0, 1, 1, 0, 0]);
    shows(rt, &form, 3, 5, &[0, 0, 0, 1, 0, 2, -1]);
    Ok(())
}

/// With the row -1 + f.
fn walk_of_three_pivots(rt: &impl Abort, alloc: Global) -> Result<(), Fail> {
    let form = first_form(alloc, "1 0", "-1 0 2, 1 10 -2, -1 0 1")?;
    let form = pivot(rt, form, 1, 2)?;
    shows(rt, &form, 3, 5, &[0, 0, 0, -1, 0, 2, -1]);
    let form = pivot(rt, form, 3, 3)?;
    shows(rt, &form, 1, 2, &[0, 0, 1, 0, 0, -1, 1]);
    shows(rt, &form, 2, 4, &[0, -10, 0, 0, 1, 2, -1]);
    shows(rt, &form, 3, 3, &[0, 0, 0, 1, 0, -2, 1]);
    let form = pivot(rt, form, 2, 1)?;
    shows(rt, &form, 0, 0, &[10, 0, 0, 0, -1, -2, 1]);
    shows(rt, &form, 1, 2, &[0, 0, 1, 0, 0, -1, 1]);
    shows(rt, &form, 2, 1, &[0, 10, 0, 0, -1, -2, 1]);
    Ok(())
}

/// The numbers grow past 63 bits.
fn walk_to_a_wide_number(rt: &impl Abort, alloc: Global) -> Result<(), Fail> {
    let rows = "-1 0 2147483647 0 0, 0 0 -1 2147483647 0, 0 0 0 -1 2147483647";
    let form = first_form(alloc, "1 0 0 0", rows)?;
    let form = pivot(rt, form, 1, 2)?;
    match pivot(rt, form, 2, 3) {
        Ok(_) => Err(Fail::from("not wide")),
        Err(wide) => {
            assert_eq!(rt; wide.size, 9903520300447984150353281023);
            Ok(())
        }
    }
}

#[test]
fn worked_programs(rt: HostRuntime) -> Result<(), Fail> {
    walk_of_two_rows(&rt, rt.alloc())?;
    walk_to_no_point(&rt, rt.alloc())?;
    walk_of_three_pivots(&rt, rt.alloc())?;
    walk_to_a_wide_number(&rt, rt.alloc())
}
