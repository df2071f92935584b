// Walks over the nodes of a tree.
ghost use Rattle.std.specs.Prelude.{◌≡◌, ◌+◌, ◌++◌, ◌<◌, ◌≤◌, ◌^◌, ◌↔◌, ℕ, List, [], All, IfOk, IsTrue, Some, length, option_map, map, sum_by};
ghost use Rattle.bound_tree.specs.Nodes.{size};
ghost use Rattle.bound_tree.specs.Plain.{kids_of, plain_of};
ghost use Rattle.goal_rows.specs.Elections.{Election};
ghost use Rattle.goal_rows.specs.Goals.{cover_of};
ghost use Rattle.goal_rows.specs.LongerKeys.{goals_of};
ghost use Rattle.goal_rows.specs.Nodes.{AreLimits, IsFeatureOf, high_half, low_half, node_of, number_count, with_limit};
ghost use Rattle.goal_rows.specs.Races.{IsGroundIn, IsRace, election_of};
ghost use Rattle.goal_rows.specs.declared.goals.Goal.TheVariants.{Cover, Suffix};
ghost use Rattle.dual_bound.specs.CutTest.{Cuts};
ghost use Rattle.margin_check.specs.Proving.{IsShaped};
ghost use Rattle.margin_check.specs.Visits.{visit_of, visits, visits_among};
ghost use Rattle.margin_check.specs.Walks.{EndsAt, FitsBelow, Gives, IsKnown};

use bound_tree::{Multipliers, Tree};
use dual_bound::{Scratch, cuts};
use goal_rows::parts::{Ground, Race};
use goal_rows::{Goal, kid_count, kid_grounds, row_count};
use mov_base::Memory;
use row_program::{Feature, Limit};
use std::alloc::Global;

/// What is asked of each node.
#[derive(Clone, Copy)]
pub(crate) enum Asked {
    /// The shape that its goal asks for.
    Shape,
    /// That a cut passes the test at this number. All nodes have their shapes.
    Cuts(u32),
}

/// Where a walk over nodes in preorder ended.
#[derive(Clone, Copy)]
pub(crate) enum End {
    /// All gave what was asked: the number behind the last.
    Through(u32),
    /// The number of the first that didn't.
    Stopped(u32),
}

/// Walks over the nodes of a tree, whose topmost node has this number, the goal of this ground, and these limits. The
/// limits are the same afterwards, unless memory ran out.
#[cycle(walk)]
#[tactic(auto, using(bound_tree::proofs::Shapes::size_Split, crate::proofs::Nodes::walk_stops, crate::proofs::Nodes::walk_over_cut))]
pub(crate) fn walk(
    alloc: Global,
    race: &Race<'_>,
    asked: Asked,
    start: &Ground,
    limits: &mut Vec<Limit>,
    tree: &Tree,
    number: u32,
    scratch: &mut Scratch,
) -> Result<End, Memory>
    requires race { IsRace race.now }
    requires start { IsGroundIn (election_of race.now) start.now }
    requires limits { AreLimits (election_of race.now) (node_of start.now limits.old.items) }
    requires fits { FitsBelow (length limits.old.items) (plain_of tree.now) }
    requires few { number + size (plain_of tree.now) < 2 ^ 32 }
    requires known { All (IsKnown (election_of race.now) asked)
        (visits (election_of race.now) (node_of start.now limits.old.items) (plain_of tree.now)) }
    requires room { length race.now.kinds ≤ scratch.old }
    ensures room { scratch.new ≡ scratch.old }
    ensures limits { IfOk result (λ end. limits.new.items ≡ limits.old.items) }
    ensures end { IfOk result (EndsAt (Gives (election_of race.now) asked) number
        (visits (election_of race.now) (node_of start.now limits.old.items) (plain_of tree.now))) }
{
    if !gives(race, asked, start, limits.as_slice(), tree, scratch) {
        return Ok(End::Stopped(number));
    }
    match tree {
        Tree::Split(kids) => match kid_grounds(alloc, race, &start.goal)? {
            Some(starts) => walk_among(
                alloc,
                race,
                asked,
                starts.as_slice(),
                limits,
                kids.as_slice(),
                number + 1,
                scratch,
            ),
            None => unreachable!(),
        },
        Tree::Branch(feature, value, low, high) => walk_halves(
            alloc,
            race,
            asked,
            start,
            limits,
            *feature,
            *value,
            low.get(),
            high.get(),
            number + 1,
            scratch,
        ),
        Tree::Cut(_) => Ok(End::Through(number + 1)),
    }
}

/// Walks over the nodes of trees, one after another, each with the goal of its ground and without limits.
#[cycle(walk)]
fn walk_among(
    alloc: Global,
    race: &Race<'_>,
    asked: Asked,
    starts: &[Ground],
    limits: &mut Vec<Limit>,
    kids: &[Tree],
    number: u32,
    scratch: &mut Scratch,
) -> Result<End, Memory>
    requires race { IsRace race.now }
    requires same { length starts.now ≡ length kids.now }
    requires limits { limits.old.items ≡ [] }
    requires starts { All (IsGroundIn (election_of race.now)) starts.now }
    requires fits { All (λ kid. FitsBelow 0 (plain_of kid)) kids.now }
    requires few { number + sum_by (λ kid. size (plain_of kid)) kids.now < 2 ^ 32 }
    requires known { All (IsKnown (election_of race.now) asked)
        (visits_among (election_of race.now) (goals_of starts.now) (kids_of (map plain_of kids.now))) }
    requires room { length race.now.kinds ≤ scratch.old }
    ensures room { scratch.new ≡ scratch.old }
    ensures limits { IfOk result (λ end. limits.new.items ≡ limits.old.items) }
    ensures end { IfOk result (EndsAt (Gives (election_of race.now) asked) number
        (visits_among (election_of race.now) (goals_of starts.now) (kids_of (map plain_of kids.now)))) }
{
    let mut next = number;
    for (i, kid) in kids.iter().enumerate() {
        match walk(alloc, race, asked, &starts[i], limits, kid, next, scratch)? {
            End::Through(behind) => next = behind,
            End::Stopped(at) => return Ok(End::Stopped(at)),
        }
    }
    Ok(End::Through(next))
}

/// Walks over the nodes of the halves of a branch, the low and the high one, each with one limit more.
#[cycle(walk)]
fn walk_halves(
    alloc: Global,
    race: &Race<'_>,
    asked: Asked,
    start: &Ground,
    limits: &mut Vec<Limit>,
    feature: Feature,
    value: u32,
    low: &Tree,
    high: &Tree,
    number: u32,
    scratch: &mut Scratch,
) -> Result<End, Memory>
    requires race { IsRace race.now }
    requires start { IsGroundIn (election_of race.now) start.now }
    requires low { AreLimits (election_of race.now) (low_half (node_of start.now limits.old.items) feature value) }
    requires high { AreLimits (election_of race.now) (high_half (node_of start.now limits.old.items) feature value) }
    requires low_fits { FitsBelow (length limits.old.items + 1) (plain_of low.now) }
    requires high_fits { FitsBelow (length limits.old.items + 1) (plain_of high.now) }
    requires few { number + size (plain_of low.now) + size (plain_of high.now) < 2 ^ 32 }
    requires low_known { All (IsKnown (election_of race.now) asked) (visits (election_of race.now)
        (low_half (node_of start.now limits.old.items) feature value) (plain_of low.now)) }
    requires high_known { All (IsKnown (election_of race.now) asked) (visits (election_of race.now)
        (high_half (node_of start.now limits.old.items) feature value) (plain_of high.now)) }
    requires room { length race.now.kinds ≤ scratch.old }
    ensures room { scratch.new ≡ scratch.old }
    ensures limits { IfOk result (λ end. limits.new.items ≡ limits.old.items) }
    ensures end { IfOk result (EndsAt (Gives (election_of race.now) asked) number
        (visits (election_of race.now) (low_half (node_of start.now limits.old.items) feature value) (plain_of low.now)
        ++ visits (election_of race.now) (high_half (node_of start.now limits.old.items) feature value)
        (plain_of high.now))) }
{
    let at_most = Limit {
        feature,
        at_most: true,
        value,
    };
    let at_least = Limit {
        feature,
        at_most: false,
        value: value + 1,
    };
    match walk_half(
        alloc, race, asked, start, limits, at_most, low, number, scratch,
    )? {
        End::Through(behind) => walk_half(
            alloc, race, asked, start, limits, at_least, high, behind, scratch,
        ),
        End::Stopped(at) => Ok(End::Stopped(at)),
    }
}

/// Walks over the nodes of a half of a branch, which has one limit more.
#[cycle(walk)]
fn walk_half(
    alloc: Global,
    race: &Race<'_>,
    asked: Asked,
    start: &Ground,
    limits: &mut Vec<Limit>,
    limit: Limit,
    half: &Tree,
    number: u32,
    scratch: &mut Scratch,
) -> Result<End, Memory>
    requires race { IsRace race.now }
    requires start { IsGroundIn (election_of race.now) start.now }
    requires limits { AreLimits (election_of race.now) (with_limit (node_of start.now limits.old.items) limit) }
    requires fits { FitsBelow (length limits.old.items + 1) (plain_of half.now) }
    requires few { number + size (plain_of half.now) < 2 ^ 32 }
    requires known { All (IsKnown (election_of race.now) asked)
        (visits (election_of race.now) (with_limit (node_of start.now limits.old.items) limit) (plain_of half.now)) }
    requires room { length race.now.kinds ≤ scratch.old }
    ensures room { scratch.new ≡ scratch.old }
    ensures limits { IfOk result (λ end. limits.new.items ≡ limits.old.items) }
    ensures end { IfOk result (EndsAt (Gives (election_of race.now) asked) number
        (visits (election_of race.now) (with_limit (node_of start.now limits.old.items) limit) (plain_of half.now))) }
{
    limits.push(limit)?;
    let end = walk(alloc, race, asked, start, limits, half, number, scratch)?;
    let _ = limits.pop();
    Ok(end)
}

/// Whether a node gives what is asked.
#[tactic(auto, using(crate::proofs::Passing::passes_Split, crate::proofs::Passing::passes_Branch))]
fn gives(
    race: &Race<'_>,
    asked: Asked,
    start: &Ground,
    limits: &[Limit],
    tree: &Tree,
    scratch: &mut Scratch,
) -> bool
    requires race { IsRace race.now }
    requires start { IsGroundIn (election_of race.now) start.now }
    requires limits { AreLimits (election_of race.now) (node_of start.now limits.now) }
    requires known { IsKnown (election_of race.now) asked
        (visit_of (node_of start.now limits.now) (plain_of tree.now)) }
    requires room { length race.now.kinds ≤ scratch.old }
    ensures room { scratch.new ≡ scratch.old }
    ensures value { IsTrue result
        ↔ Gives (election_of race.now) asked (visit_of (node_of start.now limits.now) (plain_of tree.now)) }
{
    match (asked, tree) {
        (Asked::Shape, _) => is_shaped(race, start, limits, tree),
        (Asked::Cuts(_), Tree::Split(_)) => true,
        (Asked::Cuts(_), Tree::Branch(_, _, _, _)) => true,
        (Asked::Cuts(t), Tree::Cut(multipliers)) => {
            passes(race, t, start, limits, multipliers, scratch)
        }
    }
}

/// Whether a cut passes the test at `t`, or at one more than there are ballots where `t` is greater.
fn passes(
    race: &Race<'_>,
    t: u32,
    start: &Ground,
    limits: &[Limit],
    multipliers: &Multipliers,
    scratch: &mut Scratch,
) -> bool
    requires race { IsRace race.now }
    requires start { IsGroundIn (election_of race.now) start.now }
    requires limits { AreLimits (election_of race.now) (node_of start.now limits.now) }
    requires count { length multipliers.now ≡ number_count (election_of race.now) (node_of start.now limits.now) }
    requires room { length race.now.kinds ≤ scratch.old }
    ensures room { scratch.new ≡ scratch.old }
    ensures value { IsTrue result ↔ Cuts (election_of race.now) (node_of start.now limits.now) multipliers.now t }
{
    let within = t.min(start.ballots + 1);
    cuts(start, limits, multipliers.as_slice(), within, scratch)
}

/// Whether a node has the shape that its goal asks for.
#[tactic(auto, using(crate::proofs::Nodes::shaped_Split, crate::proofs::Nodes::shaped_Cut, crate::proofs::Nodes::shaped_Branch))]
fn is_shaped(race: &Race<'_>, start: &Ground, limits: &[Limit], tree: &Tree) -> bool
    ensures { IsTrue result ↔ IsShaped (election_of race.now) (node_of start.now limits.now) (plain_of tree.now) }
{
    match tree {
        Tree::Split(kids) => limits.is_empty() && has_kids(race, &start.goal, kids.len()),
        Tree::Branch(feature, _, _, _) => is_feature(race, &start.goal, *feature),
        Tree::Cut(multipliers) => {
            multipliers.len() >= limits.len()
                && multipliers.len() - limits.len() == row_count(race, &start.goal)
        }
    }
}

/// Whether the goal has a cover of so many goals.
fn has_kids(race: &Race<'_>, goal: &Goal, count: usize) -> bool
    ensures { IsTrue result ↔ (option_map length (cover_of (election_of race.now) goal.now) ≡ Some count) }
{
    match kid_count(race, goal) {
        Some(wanted) => count == wanted,
        None => false,
    }
}

/// Whether the feature belongs to the goal.
fn is_feature(race: &Race<'_>, goal: &Goal, feature: Feature) -> bool
    ensures { IsTrue result ↔ IsFeatureOf (election_of race.now) goal.now feature }
{
    match goal {
        Goal::Root => false,
        Goal::Suffix(suffix) => is_in_suffix(suffix.as_slice().len(), feature),
        Goal::Pair(_, _) => false,
        Goal::Cover(_) => is_in_cover(race.roll.candidates(), feature),
    }
}

/// Whether the feature is a key or an arc under a suffix of so many places.
fn is_in_suffix(places: usize, feature: Feature) -> bool
    ensures { (e : Election) (suffix : List ℕ) → length suffix ≡ places →
        (IsTrue result ↔ IsFeatureOf e (Suffix suffix) feature) }
{
    match feature {
        Feature::From(key) => is_key(key, places),
        Feature::Arc(u, x) => u < x && usize::from(x) <= places,
    }
}

/// Whether the feature is a key under a cover, of so many candidates.
fn is_in_cover(candidates: u8, feature: Feature) -> bool
    ensures { (e : Election) (x : ℕ) → e.poll.c ≡ candidates → (IsTrue result ↔ IsFeatureOf e (Cover x) feature) }
{
    match feature {
        Feature::From(key) => is_key(key, usize::from(candidates)),
        Feature::Arc(_, _) => false,
    }
}

/// Whether the key has no bit but the first so many.
fn is_key(key: u64, bits: usize) -> bool
    ensures { IsTrue result ↔ (key < 2 ^ bits) }
{
    bits >= 64 || key >> bits == 0
}
