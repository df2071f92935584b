// The cut test of a node.
ghost use Rattle.std.specs.Prelude.{◌≡◌, ◌≤◌, ◌+◌, ◌↔◌, IsTrue, length};
ghost use Rattle.dual_bound.specs.CutTest.{AreMultipliers, Cuts, IsBound};
ghost use Rattle.goal_rows.specs.Elections.{Election};
ghost use Rattle.goal_rows.specs.Nodes.{AreLimits, node_of};
ghost use Rattle.goal_rows.specs.Races.{IsGroundIn, IsSomeGround};

use crate::Scratch;
use goal_rows::Goal;
use goal_rows::parts::Ground;
use row_program::Limit;

/// Whether the multipliers, one for each row of the goal and then one for each limit, cut the node at `t`: then no list
/// of fewer than `t` replacements meets it. The node is the goal of `start` with these limits, `t` is at most one more
/// than there are ballots, and the scratch has room for the classes. It takes no memory.
pub fn cuts(
    start: &Ground,
    limits: &[Limit],
    multipliers: &[u64],
    t: u32,
    scratch: &mut Scratch,
) -> bool
    requires start { IsSomeGround start.now }
    requires limits { (e : Election) → IsGroundIn e start.now → AreLimits e (node_of start.now limits.now) }
    requires multipliers { AreMultipliers start.now limits.now multipliers.now }
    requires within { t ≤ start.now.ballots + 1 }
    requires room { length start.now.classes ≤ scratch.old }
    ensures value { (e : Election) → IsGroundIn e start.now →
        (IsTrue result ↔ Cuts e (node_of start.now limits.now) multipliers.now t) }
    ensures room { scratch.new ≡ scratch.old }
{
    match start.goal {
        Goal::Root => t == 0,
        _ => scratch.cuts(start, limits, multipliers, t),
    }
}

/// The greatest number, up to one more than there are ballots, at which the multipliers cut the node, which is the goal
/// of `start` with these limits. The scratch has room for the classes. It takes no memory.
pub fn bound_of(start: &Ground, limits: &[Limit], multipliers: &[u64], scratch: &mut Scratch) -> u32
    requires start { IsSomeGround start.now }
    requires limits { (e : Election) → IsGroundIn e start.now → AreLimits e (node_of start.now limits.now) }
    requires multipliers { AreMultipliers start.now limits.now multipliers.now }
    requires room { length start.now.classes ≤ scratch.old }
    ensures value { (e : Election) → IsGroundIn e start.now →
        IsBound e (node_of start.now limits.now) multipliers.now result }
    ensures room { scratch.new ≡ scratch.old }
{
    match start.goal {
        Goal::Root => 0,
        _ => scratch.bound_of(start, limits, multipliers),
    }
}
