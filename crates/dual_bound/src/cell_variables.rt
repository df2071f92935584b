// The variables of a program, and the values of a cell.
ghost use Rattle.std.specs.Prelude.{◌≡◌, ◌<◌, ◌≤◌, ◌+◌, ◌-◌, ◌++◌, All, IfOk, OnOk, map};
ghost use Rattle.std.specs.List.{range_with_len};
ghost use Rattle.ballot_form.specs.declared.limits.TheConstants.{MOST_BALLOTS};
ghost use Rattle.row_program.specs.declared.Feature.TheVariants.{Arc, From};
ghost use Rattle.sig_graph.specs.Paths.{arcs_of};
ghost use Rattle.goal_rows.specs.Cells.{HasFeatures, cell_values as values_of, low_end as least_count};
ghost use Rattle.goal_rows.specs.Elections.{Election};
ghost use Rattle.goal_rows.specs.Nodes.{AreLimits, node_of};
ghost use Rattle.goal_rows.specs.Races.{IsGroundIn, IsSomeGround};
ghost use Rattle.dual_bound.specs.CellCuts.{features_of};

use crate::cells::low_end;
use crate::class_gains::places_of;
use goal_rows::parts::Ground;
use mov_base::Memory;
use row_program::{Feature, Limit, NumberList};
use signature_class::Classes;
use std::alloc::Global;

/// The least value of each variable that the limits leave: of a cell its one point. The node is the goal of `start`,
/// one with features, with these limits.
pub fn cell_values(alloc: Global, start: &Ground, limits: &[Limit]) -> Result<NumberList, Memory>
    requires start { IsSomeGround start.now }
    requires limits { (e : Election) → IsGroundIn e start.now → AreLimits e (node_of start.now limits.now) }
    requires features { HasFeatures start.now.goal }
    ensures each { IfOk result (λ values. values ≡ values_of start.now limits.now) }
    ensures small { IfOk result (All (λ value. value ≤ MOST_BALLOTS)) }
{
    let features = features(alloc, start)?;
    low_ends(alloc, limits, &features)
}

/// The least count of each feature that the limits leave.
fn low_ends(alloc: Global, limits: &[Limit], features: &[Feature]) -> Result<NumberList, Memory>
    requires { All (λ limit. limit.value ≤ MOST_BALLOTS) limits.now }
    ensures each { IfOk result (λ values. values ≡ map (least_count limits.now) features.now) }
    ensures small { IfOk result (All (λ value. value ≤ MOST_BALLOTS)) }
{
    let mut values = NumberList::new(alloc);
    for feature in features {
        values.push(u64::from(low_end(limits, *feature)))?;
    }
    Ok(values)
}

/// The features that the variables of a program count, in its order: those of the classes, and then those of the arcs.
/// The goal of `start` is one with features.
pub fn features(alloc: Global, start: &Ground) -> Result<Vec<Feature>, Memory>
    requires start { IsSomeGround start.now }
    requires features { HasFeatures start.now.goal }
    ensures { IfOk result (λ features. features.items ≡ features_of start.now) }
{
    let mut features = class_features(alloc, &start.classes)?;
    add_arc_features(&mut features, places_of(start))?;
    Ok(features)
}

/// The features of classes.
fn class_features(alloc: Global, classes: &Classes) -> Result<Vec<Feature>, Memory>
    ensures { IfOk result (λ features. features.items ≡ map (λ c. From c.0) classes.now) }
{
    let mut features = Vec::new(alloc);
    for k in 0..classes.len() {
        features.push(Feature::From(classes.key(k)))?;
    }
    Ok(features)
}

/// Adds those of the arcs of m places.
fn add_arc_features(features: &mut Vec<Feature>, m: u8) -> Result<(), Memory>
    ensures { OnOk result (features.new.items ≡ features.old.items ++ map (λ a. Arc a.0 a.1) (arcs_of m)) }
{
    for u in 0..m {
        add_features_out(features, m, u)?;
    }
    Ok(())
}

/// Adds those of the arcs that begin at the place.
fn add_features_out(features: &mut Vec<Feature>, m: u8, u: u8) -> Result<(), Memory>
    requires { u < m }
    ensures { OnOk result (features.new.items
        ≡ features.old.items ++ map (λ x. Arc u x) (range_with_len (u + 1) (m - u))) }
{
    for before in u..m {
        features.push(Feature::Arc(u, before + 1))?;
    }
    Ok(())
}
