// A cell of the cover of the first candidate in a cycle of three, which has a class of one ballot for each of the keys
// 1, 7 and 5.
ghost use Rattle.std.specs.Prelude.{◌≡◌, ◌≤◌};
ghost use Rattle.row_program.specs.declared.Feature.TheVariants.{From};
ghost use Rattle.goal_rows.specs.Elections.{Election};
ghost use Rattle.goal_rows.specs.Nodes.{AreLimits, node_of};
ghost use Rattle.goal_rows.specs.Races.{IsGroundIn, IsSomeGround};

use crate::rolls::roll_of;
use ballot_form::Rule;
use dual_bound::{Scratch, bound_of, cell_cut, is_cell};
use goal_rows::parts::Ground;
use goal_rows::{Goal, ground, is_complete, race};
use row_program::{Feature, Limit};
use std::alloc::Global;
use std::process::Abort;
use std::test::Fail;

/// A limit on the class of the key.
fn limit_on(key: u64, at_most: bool, value: u32) -> Limit
    ensures key { result.feature ≡ From key }
    ensures value { result.value ≡ value }
{
    Limit {
        feature: Feature::From(key),
        at_most,
        value,
    }
}

/// The node is a cell, its multipliers are these, and this is their bound.
fn is_cut_by(
    rt: &impl Abort,
    alloc: Global,
    start: &Ground,
    limits: &[Limit],
    wanted: &[u64],
    bound: u32,
) -> Result<(), Fail>
    requires start { IsSomeGround start.now }
    requires limits { (e : Election) → IsGroundIn e start.now → AreLimits e (node_of start.now limits.now) }
{
    assert!(rt; is_cell(start, limits));
    let multipliers = cell_cut(alloc, start, limits)?;
    assert_eq!(rt; multipliers.as_slice(), wanted);
    let mut scratch = Scratch::for_classes(alloc, start.classes.len())?;
    let found = bound_of(start, limits, multipliers.as_slice(), &mut scratch);
    assert_eq!(rt; found, bound);
    Ok(())
}

/// The same of the cell whose limits replace no ballot of the keys 1 and 5, with this limit on those of the key 7.
fn is_cut(
    rt: &impl Abort,
    alloc: Global,
    middle: Limit,
    wanted: &[u64],
    bound: u32,
) -> Result<(), Fail>
    requires key { middle.feature ≡ From 7 }
    requires small { middle.value ≤ 1 }
{
    let roll = roll_of(alloc, "3: 1 ABC, 1 BCA, 1 CAB")?;
    let race = race(alloc, Rule::Condorcet, &roll)?;
    let cover = Goal::Cover(0);
    if !is_complete(&race, &cover) {
        return Err("there is a winner".into());
    }
    let start = ground(alloc, &race, &cover)?;
    if start.sums.len() != 2 {
        return Err("not three candidates".into());
    }
    let limits = [limit_on(1, true, 0), middle, limit_on(5, true, 0)];
    is_cut_by(rt, alloc, &start, &limits, wanted, bound)
}

#[test]
fn a_cell_is_cut_up_to_its_cost_or_beyond_all_ballots(rt: HostRuntime) -> Result<(), Fail> {
    let alloc = rt.alloc();
    is_cut(&rt, alloc, limit_on(7, false, 1), &[0, 0, 0, 1, 0], 1)?;
    is_cut(&rt, alloc, limit_on(7, true, 0), &[0, 1, 0, 2, 2], 4)
}
