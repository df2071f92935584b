// Cells: nodes whose limits leave each variable of their program one value.
ghost use Rattle.std.specs.Prelude.{◌≡◌, ◌<◌, ◌≤◌, ◌↔◌, IsTrue, ℕ, All, Contains, length, map};
ghost use Rattle.signature_class.specs.Classes.{keys_of};
ghost use Rattle.goal_rows.specs.Cells.{HasFeatures, IsCell, high_end as greatest_count, low_end as least_count, same_feature};
ghost use Rattle.goal_rows.specs.Elections.{Election};
ghost use Rattle.goal_rows.specs.Nodes.{AreLimits, node_of};
ghost use Rattle.goal_rows.specs.Races.{IsGroundIn, IsSomeGround};
ghost use Rattle.dual_bound.specs.CellCuts.{features_of};
ghost use Rattle.dual_bound.specs.CellParts.{IsFixed, IsFixedArc, IsFixedClass, variable};
ghost use Rattle.dual_bound.specs.Sizes.{IsSmallGround, places_of as goal_places};

use crate::class_gains::places_of;
use crate::features::is_same;
use goal_rows::Goal;
use goal_rows::parts::Ground;
use row_program::{Feature, Limit};
use signature_class::Classes;

/// Whether the node, which is the goal of `start` with these limits, is a cell: a suffix or a cover whose limits are
/// all on variables of its program, and leave each of these one value. It takes no memory.
pub fn is_cell(start: &Ground, limits: &[Limit]) -> bool
    requires start { IsSomeGround start.now }
    requires limits { (e : Election) → IsGroundIn e start.now → AreLimits e (node_of start.now limits.now) }
    ensures { IsTrue result ↔ IsCell start.now limits.now }
{
    has_features(&start.goal) && has_one_point(start, limits)
}

/// Whether the goal has features.
fn has_features(goal: &Goal) -> bool
    ensures { IsTrue result ↔ HasFeatures goal.now }
{
    match goal {
        Goal::Suffix(_) | Goal::Cover(_) => true,
        Goal::Root | Goal::Pair(_, _) => false,
    }
}

/// Whether the limits leave each variable one value, and are on variables.
fn has_one_point(start: &Ground, limits: &[Limit]) -> bool
    requires start { IsSmallGround start.now }
    requires features { HasFeatures start.now.goal }
    ensures { IsTrue result ↔ IsCell start.now limits.now }
{
    let m = places_of(start);
    if !are_classes_fixed(&start.classes, limits) {
        return false;
    }
    if !are_arcs_fixed(m, start.ballots, limits) {
        return false;
    }
    are_on_variables(start, m, limits)
}

/// Whether the limits leave the variable of each class one value.
fn are_classes_fixed(classes: &Classes, limits: &[Limit]) -> bool
    ensures { IsTrue result ↔ All (IsFixedClass limits.now) classes.now }
{
    for k in 0..classes.len() {
        if !is_fixed(limits, Feature::From(classes.key(k)), classes.count(k)) {
            return false;
        }
    }
    true
}

/// Whether the limits leave the variable of each arc of m places one value.
fn are_arcs_fixed(m: u8, ballots: u32, limits: &[Limit]) -> bool
    ensures { IsTrue result ↔ ((u x : ℕ) → u < x → x ≤ m → IsFixedArc limits.now ballots u x) }
{
    for u in 0..m {
        if !are_arcs_out_fixed(m, u, ballots, limits) {
            return false;
        }
    }
    true
}

/// Whether the limits leave the variable of each arc from u one value.
fn are_arcs_out_fixed(m: u8, u: u8, ballots: u32, limits: &[Limit]) -> bool
    requires { u < m }
    ensures { IsTrue result ↔ ((x : ℕ) → u < x → x ≤ m → IsFixedArc limits.now ballots u x) }
{
    for before in u..m {
        if !is_fixed(limits, Feature::Arc(u, before + 1), ballots) {
            return false;
        }
    }
    true
}

/// Whether the limits leave one value to the variable of the feature, of which there are so many without limits.
fn is_fixed(limits: &[Limit], feature: Feature, end: u32) -> bool
    ensures { IsTrue result ↔ IsFixed limits.now (variable feature end) }
{
    low_end(limits, feature) == high_end(limits, feature, end)
}

/// The least count of the feature that the limits leave: 0, or the greatest value of those that are lower limits on it.
pub fn low_end(limits: &[Limit], feature: Feature) -> u32
    ensures { result ≡ least_count limits.now feature }
{
    let mut low = 0;
    for limit in limits {
        if !limit.at_most && is_same(feature, limit.feature) {
            low = low.max(limit.value);
        }
    }
    low
}

/// The greatest count of the feature that the limits leave: the least of `end`, which is how many there are without
/// limits, and the values of those that are upper limits on it.
pub fn high_end(limits: &[Limit], feature: Feature, end: u32) -> u32
    ensures { result ≡ greatest_count limits.now (variable feature end) }
{
    let mut high = end;
    for limit in limits {
        if limit.at_most && is_same(feature, limit.feature) {
            high = high.min(limit.value);
        }
    }
    high
}

/// Whether each limit is on a variable, of a goal with m places.
fn are_on_variables(start: &Ground, m: u8, limits: &[Limit]) -> bool
    requires features { HasFeatures start.now.goal }
    requires places { m ≡ goal_places start.now.goal }
    ensures { IsTrue result ↔ All (λ limit. Contains (features_of start.now) limit.feature) limits.now }
{
    for limit in limits {
        if !is_on_variable(start, m, limit.feature) {
            return false;
        }
    }
    true
}

/// Whether a variable counts the feature, of a goal with m places.
fn is_on_variable(start: &Ground, m: u8, feature: Feature) -> bool
    requires features { HasFeatures start.now.goal }
    requires places { m ≡ goal_places start.now.goal }
    ensures { IsTrue result ↔ Contains (features_of start.now) feature }
{
    match feature {
        Feature::From(key) => has_class(&start.classes, key),
        Feature::Arc(u, x) => is_arc(m, u, x),
    }
}

/// Whether the graph of m places has the arc from u to x.
fn is_arc(m: u8, u: u8, x: u8) -> bool
    ensures { IsTrue result ↔ ((u < x) × (x ≤ m)) }
{
    u < x && x <= m
}

/// Whether there is a class of this key.
fn has_class(classes: &Classes, key: u64) -> bool
    ensures { IsTrue result ↔ Contains (keys_of classes.now) key }
{
    for k in 0..classes.len() {
        if classes.key(k) == key {
            return true;
        }
    }
    false
}
