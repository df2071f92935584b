// Where a leaf is branched.
ghost use Rattle.std.specs.Prelude.{◌≡◌, ◌≤◌, ◌<◌, ◌*◌, ℕ, All, IfOk, Some, length, slice_get};
ghost use Rattle.ballot_form.specs.declared.limits.TheConstants.{MOST_BALLOTS};
ghost use Rattle.goal_rows.specs.Cells.{HasFeatures, Variable as AVariable, variables_of};
ghost use Rattle.goal_rows.specs.Elections.{Election};
ghost use Rattle.goal_rows.specs.Races.{IsSomeGround};
ghost use Rattle.dual_bound.specs.CellCuts.{features_of};
ghost use Rattle.search_leaves.specs.Branched.{HasPart, HasWide, IsBranchedAt, IsPartAt, IsWideAt, MayBranch};
ghost use Rattle.search_leaves.specs.Kept.{CanHalve, branching_in, node_at};

use crate::leaves::Leaf;
use dual_bound::{high_end, low_end, variable_features};
use goal_rows::parts::Ground;
use mov_base::Memory;
use row_program::{Feature, Limit, Point};
use std::alloc::Global;

/// The feature by which a leaf is branched, and the value of its low half.
#[derive(Clone, Copy, Debug)]
pub struct Branching {
    /// What is limited.
    pub feature: Feature,
    /// The greatest value in the low half.
    pub value: u32,
}

/// Where a leaf of a complete goal is branched: at its least point, on the first variable whose value isn't whole, at
/// its floor; without a point, on the first variable to which the limits leave more than one value, in the middle of
/// these.
pub fn branching_of(alloc: Global, leaf: &Leaf) -> Result<Branching, Memory>
    requires { (e : Election) × MayBranch e leaf.now }
    ensures branching { (e : Election) → MayBranch e leaf.now →
        IfOk result (λ b. IsBranchedAt e leaf.now (branching_in b)) }
    ensures halves { (e : Election) → MayBranch e leaf.now →
        IfOk result (λ b. CanHalve e (node_at leaf.now) (branching_in b)) }
{
    let features = variable_features(alloc, &leaf.start)?;
    match &leaf.point {
        Some(point) => Ok(floor_of(&features, point)),
        None => Ok(middle_of(&leaf.start, &features, leaf.limits.as_slice())),
    }
}

/// The first variable whose value isn't whole, at its floor. The variables have these features.
fn floor_of(features: &[Feature], point: &Point) -> Branching
    requires positive { 1 ≤ point.now.den }
    requires each { length point.now.whole ≡ length features.now }
    requires small { All (λ n. n ≤ MOST_BALLOTS * point.now.den) point.now.whole }
    requires part { HasPart point.now.whole point.now.den }
    ensures { IsPartAt features.now point.now.whole point.now.den (branching_in result) }
{
    let whole = point.whole.as_slice();
    for k in 0..whole.len() {
        if whole[k] % point.den != 0 {
            return Branching {
                feature: features[k],
                value: (whole[k] / point.den) as u32,
            };
        }
    }
    unreachable!()
}

/// The first variable to which the limits leave more than one value, in the middle of these. The variables have these
/// features.
fn middle_of(start: &Ground, features: &[Feature], limits: &[Limit]) -> Branching
    requires start { IsSomeGround start.now }
    requires features { features.now ≡ features_of start.now }
    requires wide { HasWide (variables_of start.now) limits.now }
    ensures { IsWideAt (variables_of start.now) limits.now (branching_in result) }
{
    for k in 0..features.len() {
        let feature = features[k];
        let low = low_end(limits, feature);
        let high = high_end(limits, feature, end_of(start, k));
        if low < high {
            return Branching {
                feature,
                value: low + (high - low) / 2,
            };
        }
    }
    unreachable!()
}

/// The most that there can be of variable k, from 0, without limits.
fn end_of(start: &Ground, k: usize) -> u32
    ensures { (v : AVariable) → slice_get (variables_of start.now) k ≡ Some v → result ≡ v.end }
{
    if k < start.classes.len() {
        start.classes.count(k)
    } else {
        start.ballots
    }
}
