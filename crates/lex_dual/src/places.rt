// The rows of the variables that have a value: the cost and those of the program.
ghost use Rattle.std.specs.Prelude.{◌≡◌, ◌<◌, length, IfOk};
ghost use Rattle.row_program.specs.Forms.{tableau, first_form, next_form, IsNonbasic};
ghost use Rattle.pivot_form.specs.Invariant.{IsForm};
ghost use Rattle.lex_dual.specs.Choices.{places_of};

use mov_base::Memory;
use pivot_form::Form;
use row_program::Program;

/// The rows in the first form, in place of what the vector held: the cost's alone.
pub(crate) fn first_places(
    mut places: Vec<Option<usize>>,
    program: &Program,
) -> Result<Vec<Option<usize>>, Memory>
    ensures { IfOk result (λ places. places.items ≡ places_of (first_form program.now)) }
{
    places.clear();
    places.reserve(program.costs.len() + 1)?;
    places.push(Some(0))?;
    for _cost in program.costs.as_slice() {
        places.push(None)?;
    }
    Ok(places)
}

/// The rows after a pivot at the row and the column: the basic variable of the row leaves, and that of the column
/// enters.
pub(crate) fn exchange(places: &mut [Option<usize>], form: &Form, row: usize, column: usize)
    requires form { IsForm form.now }
    requires places { places.old ≡ places_of form.now }
    requires row { row < length form.now.rows }
    requires nonbasic { IsNonbasic (tableau form.now) column }
    ensures { places.new ≡ places_of (next_form form.now row column) }
{
    let leaving = form.basic(row);
    if leaving < places.len() {
        places[leaving] = None;
    }
    if column < places.len() {
        places[column] = Some(row);
    }
}
