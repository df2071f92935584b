// Copies of what is known of a goal.
ghost use Rattle.std.specs.Prelude.{◌≡◌, ◌≤◌, All, IfOk};
ghost use Rattle.ballot_form.specs.declared.limits.TheConstants.{MOST_BALLOTS};
ghost use Rattle.goal_rows.specs.Races.{IsSomeGround};

use goal_rows::parts::Ground;
use mov_base::Memory;
use signature_class::Classes;
use std::alloc::Global;

/// A copy of what is known of a goal.
pub(crate) fn ground_copy(alloc: Global, start: &Ground) -> Result<Ground, Memory>
    requires { IsSomeGround start.now }
    ensures { IfOk result (λ copy. copy ≡ start.now) }
{
    let goal = start.goal.copy()?;
    let classes = classes_copy(alloc, &start.classes)?;
    let sums = start.sums.copy()?;
    Ok(Ground {
        goal,
        classes,
        sums,
        ballots: start.ballots,
        lone: start.lone,
    })
}

/// A copy of the classes.
fn classes_copy(alloc: Global, classes: &Classes) -> Result<Classes, Memory>
    requires small { All (λ c. c.1 ≤ MOST_BALLOTS) classes.now }
    ensures { IfOk result (λ copy. copy ≡ classes.now) }
{
    let mut copy = Classes::new(alloc);
    for i in 0..classes.len() {
        copy.add(classes.key(i), classes.count(i))?;
    }
    Ok(copy)
}
