// The one point of a cell.
ghost use Rattle.std.specs.Prelude.{IfOk};
ghost use Rattle.goal_rows.specs.Cells.{IsCell};
ghost use Rattle.goal_rows.specs.Elections.{Election};
ghost use Rattle.goal_rows.specs.Nodes.{AreLimits, node_of};
ghost use Rattle.goal_rows.specs.Races.{IsGroundIn, IsSomeGround};
ghost use Rattle.witness_build.specs.CellPoints.{IsCellPoint};

use dual_bound::cell_values;
use goal_rows::parts::Ground;
use goal_rows::program_of;
use mov_base::Memory;
use row_program::{Limit, Point, holds_at};
use std::alloc::Global;

/// The one point of a cell: the values that the limits leave its variables, over 1; None exactly where these break a
/// row. The node is the goal of `start` with these limits.
pub fn cell_point(alloc: Global, start: &Ground, limits: &[Limit]) -> Result<Option<Point>, Memory>
    requires start { IsSomeGround start.now }
    requires limits { (e : Election) → IsGroundIn e start.now → AreLimits e (node_of start.now limits.now) }
    requires cell { IsCell start.now limits.now }
    ensures { IfOk result (IsCellPoint start.now limits.now) }
{
    let whole = cell_values(alloc, start, limits)?;
    let program = program_of(alloc, start, limits)?;
    let point = Point { whole, den: 1 };
    if holds_at(&program, &point) {
        Ok(Some(point))
    } else {
        Ok(None)
    }
}
