// The method from the first form to the answer.
ghost use Rattle.std.specs.Prelude.{◌≡◌, ◌<◌, length, IfOk, IfErr, OnOk, Some, None};
ghost use Rattle.row_program.specs.Points.{IsLeastCost, IsLeastPoint};
ghost use Rattle.row_program.specs.Method.{leaving, entering, IsBest, IsWide};
ghost use Rattle.dual_theory.specs.Runs.{Rises, NoneTwice, ColumnsPositive};
ghost use Rattle.dual_theory.specs.Ends.{IsWideSize};
ghost use Rattle.dual_theory.specs.Multipliers.{BoundsCost, RulesOut, IsLowest};
ghost use Rattle.lex_dual.specs.Choices.{places_of};
ghost use Rattle.lex_dual.specs.Faults.{IfWide};
ghost use Rattle.lex_dual.specs.Answers.{OnBest, OnNever, multipliers_in, HasNoPoint, IsReadAtBest, IsReadAtNever};
ghost use Rattle.lex_dual.specs.Reached.{IsReached};

use crate::buffers::Buffers;
use crate::choice::{candidate_buffer, entering, leaving};
use crate::multipliers::multipliers;
use crate::places::{exchange, first_places};
use crate::point::point;
use crate::{SolveFault, Solved};
use exact_num::Ratio;
use pivot_form::Form;
use row_program::Program;
use std::alloc::Global;
use std::mem::replace;

/// The least cost over all points that meet the rows, with the lexicographically least point of that cost; or that no
/// point meets them. The multipliers, one a kept row, show it for all points that meet the other rows: where the sum of
/// multipliers times kept rows isn't negative, the cost is at least the value; where there is no point, the sum is always
/// negative. They are the sizes of the entries of these rows' slacks in one equation of the method's last form, divided by
/// their greatest common divisor: in that of the cost, or, where there is no point, of the first negative variable.
///
/// `Wide` comes where a form on the way has an entry or a right side of 63 bits or more, or at the end the point such a
/// number. It names the first of these: in the first such form, row by row, each right side after its columns; else the
/// first of the common denominators as they grow, variable by variable; else the first of the numbers.
pub fn solve(alloc: Global, program: &Program) -> Result<Solved, SolveFault>
    ensures least_cost { IfOk result (OnBest (λ value _ _. IsLeastCost program.now value.num value.den)) }
    ensures least_point { IfOk result (OnBest (λ _ _ point. IsLeastPoint program.now point.whole point.den)) }
    ensures cost_shown { IfOk result (OnBest (λ value multipliers _.
        BoundsCost program.now multipliers value.num value.den)) }
    ensures no_point { IfOk result (OnNever (λ _. HasNoPoint program.now)) }
    ensures none_shown { IfOk result (OnNever (λ multipliers. RulesOut program.now multipliers)) }
    ensures best_multipliers { IfOk result (OnBest (λ _ multipliers _. IsReadAtBest program.now multipliers)) }
    ensures never_multipliers { IfOk result (OnNever (λ multipliers. IsReadAtNever program.now multipliers)) }
    ensures each_row { IfOk result (λ solved. length (multipliers_in solved) ≡ program.now.kept) }
    ensures lowest { IfOk result (λ solved. IsLowest (multipliers_in solved)) }
    ensures wide { IfErr result (IfWide (λ _. IsWide program.now)) }
    ensures size { IfErr result (IfWide (λ size. IsWideSize program.now size)) }
    ensures narrow { OnOk result (¬ IsWide program.now) }
    ensures rises { Rises program.now }
    ensures none_twice { NoneTwice program.now }
    ensures columns { ColumnsPositive program.now }
{
    solve_in(alloc, program, &mut Buffers::new(alloc))
}

/// The same in the memory of programs that were solved before. Of programs of one size, one after another, the third and
/// later ones take no new memory but that of their answers; after `Wide` or want of memory the next one begins anew.
pub fn solve_in(
    alloc: Global,
    program: &Program,
    buffers: &mut Buffers,
) -> Result<Solved, SolveFault>
    ensures least_cost { IfOk result (OnBest (λ value _ _. IsLeastCost program.now value.num value.den)) }
    ensures least_point { IfOk result (OnBest (λ _ _ point. IsLeastPoint program.now point.whole point.den)) }
    ensures cost_shown { IfOk result (OnBest (λ value multipliers _.
        BoundsCost program.now multipliers value.num value.den)) }
    ensures no_point { IfOk result (OnNever (λ _. HasNoPoint program.now)) }
    ensures none_shown { IfOk result (OnNever (λ multipliers. RulesOut program.now multipliers)) }
    ensures best_multipliers { IfOk result (OnBest (λ _ multipliers _. IsReadAtBest program.now multipliers)) }
    ensures never_multipliers { IfOk result (OnNever (λ multipliers. IsReadAtNever program.now multipliers)) }
    ensures each_row { IfOk result (λ solved. length (multipliers_in solved) ≡ program.now.kept) }
    ensures lowest { IfOk result (λ solved. IsLowest (multipliers_in solved)) }
    ensures wide { IfErr result (IfWide (λ _. IsWide program.now)) }
    ensures size { IfErr result (IfWide (λ size. IsWideSize program.now size)) }
    ensures narrow { OnOk result (¬ IsWide program.now) }
    ensures rises { Rises program.now }
    ensures none_twice { NoneTwice program.now }
    ensures columns { ColumnsPositive program.now }
{
    let lent = replace(buffers, Buffers::new(alloc));
    let mut form = Form::start_in(alloc, program, lent.room)?;
    let mut places = first_places(lent.places, program)?;
    let mut candidates = candidate_buffer(lent.candidates, &form)?;
    while let Some(row) = leaving(&form) {
        let Some(column) = entering(&form, places.as_slice(), row, &mut candidates) else {
            let solved = never(alloc, program, &form, row);
            *buffers = Buffers {
                room: form.into_room(),
                places,
                candidates,
            };
            return solved;
        };
        exchange(places.as_mut_slice(), &form, row, column);
        form = form.pivot(row, column)?;
    }
    let solved = best(alloc, program, &form, places.as_slice());
    *buffers = Buffers {
        room: form.into_room(),
        places,
        candidates,
    };
    solved
}

/// The answer where no basic variable is negative.
fn best(
    alloc: Global,
    program: &Program,
    form: &Form,
    places: &[Option<usize>],
) -> Result<Solved, SolveFault>
    requires reached { IsReached program.now form.now }
    requires best { IsBest form.now }
    requires places { places.now ≡ places_of form.now }
    ensures cost { IfOk result (OnBest (λ value _ _. IsLeastCost program.now value.num value.den)) }
    ensures point { IfOk result (OnBest (λ _ _ point. IsLeastPoint program.now point.whole point.den)) }
    ensures shown { IfOk result (OnBest (λ value multipliers _.
        BoundsCost program.now multipliers value.num value.den)) }
    ensures read { IfOk result (OnBest (λ _ multipliers _. IsReadAtBest program.now multipliers)) }
    ensures is_best { IfOk result (OnNever (λ _. ⊥)) }
    ensures each_row { IfOk result (λ solved. length (multipliers_in solved) ≡ program.now.kept) }
    ensures lowest { IfOk result (λ solved. IsLowest (multipliers_in solved)) }
    ensures wide { IfErr result (IfWide (λ _. IsWide program.now)) }
    ensures size { IfErr result (IfWide (λ size. IsWideSize program.now size)) }
    ensures narrow { OnOk result (¬ IsWide program.now) }
{
    let value = Ratio::new(form.right(0), form.entry(0, 0));
    let multipliers = multipliers(alloc, program, form, 0)?;
    let point = point(alloc, program, form, places)?;
    Ok(Solved::Best {
        value,
        multipliers,
        point,
    })
}

/// The answer where a row is negative and has no candidate.
fn never(alloc: Global, program: &Program, form: &Form, row: usize) -> Result<Solved, SolveFault>
    requires reached { IsReached program.now form.now }
    requires leaving { leaving form.now ≡ Some row }
    requires none { entering form.now row ≡ None }
    ensures is_never { IfOk result (OnBest (λ _ _ _. ⊥)) }
    ensures point { IfOk result (OnNever (λ _. HasNoPoint program.now)) }
    ensures shown { IfOk result (OnNever (λ multipliers. RulesOut program.now multipliers)) }
    ensures read { IfOk result (OnNever (λ multipliers. IsReadAtNever program.now multipliers)) }
    ensures each_row { IfOk result (λ solved. length (multipliers_in solved) ≡ program.now.kept) }
    ensures lowest { IfOk result (λ solved. IsLowest (multipliers_in solved)) }
    ensures memory { IfErr result (IfWide (λ _. ⊥)) }
    ensures narrow { OnOk result (¬ IsWide program.now) }
{
    let multipliers = multipliers(alloc, program, form, row)?;
    Ok(Solved::Never { multipliers })
}
