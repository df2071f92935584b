// What a turn of a search does.
ghost use Rattle.std.specs.Prelude.{◌≡◌, ◌↔◌, ◌<◌, ◌≤◌, ◌+◌, ℕ, IsTrue, Some, length};
ghost use Rattle.bound_tree.specs.declared.bound.TheConstants.{MOST_NODES};
ghost use Rattle.goal_rows.specs.Races.{IsRace, election_of};
ghost use Rattle.search_theory.specs.Branchings.{IsWhole, Values as AValues};
ghost use Rattle.search_theory.specs.Ends.{IsKnown};
ghost use Rattle.search_leaves.specs.Found.{problem_of};
ghost use Rattle.search_leaves.specs.Kept.{node_at, values_of};
ghost use Rattle.suffix_search.specs.Searches.{IsRunning, IsTurn, bound_in, growth_at};

use bound_tree::{BoundTree, MOST_DEPTH};
use goal_rows::kid_count;
use goal_rows::parts::Race;
use row_program::Point;
use search_leaves::Leaf;

/// Why a search stops. Where it is at a point, the place of the leaf that has it.
#[derive(Clone, Copy)]
pub(crate) enum Stop {
    Nothing,
    Met,
    AtPoint(usize),
    Budget,
    Depth,
}

/// What a turn does: it stops, with the least bound; or the leaf at this place grows.
#[derive(Clone, Copy)]
pub(crate) enum Turn {
    Stop(u32, Stop),
    Grow(usize),
}

/// What the next turn does, where so many replacements are known to turn the outcome, if any, and the tree may have so
/// many nodes.
pub(crate) fn decide(
    race: &Race<'_>,
    leaves: &[Leaf],
    tree: &BoundTree,
    upper: Option<u32>,
    budget: u32,
) -> Turn
    requires race { IsRace race.now }
    requires known { IsKnown (problem_of race.now upper budget) }
    requires search { IsRunning (problem_of race.now upper budget) tree.now leaves.now }
    ensures { IsTurn (problem_of race.now upper budget) tree.now leaves.now result }
{
    let top = race.roll.len() + 1;
    if leaves.is_empty() {
        return Turn::Stop(top, Stop::Nothing);
    }
    let place = first_least(leaves);
    let leaf = &leaves[place];
    if leaf.bound >= top {
        return Turn::Stop(top, Stop::Nothing);
    }
    if is_met(upper, leaf.bound) {
        return Turn::Stop(leaf.bound, Stop::Met);
    }
    if is_at_point(leaf) {
        return Turn::Stop(leaf.bound, Stop::AtPoint(place));
    }
    if !has_room(race, leaf, tree.nodes(), budget) {
        return Turn::Stop(leaf.bound, Stop::Budget);
    }
    if leaf.depth >= MOST_DEPTH {
        return Turn::Stop(leaf.bound, Stop::Depth);
    }
    Turn::Grow(place)
}

/// The place of the first leaf with the least bound.
#[tactic(auto, using(crate::proofs::Turning::bound_is))]
fn first_least(leaves: &[Leaf]) -> usize
    requires some { 0 < length leaves.now }
    ensures within { result < length leaves.now }
    ensures least { (k : ℕ) → k < length leaves.now → bound_in leaves.now result ≤ bound_in leaves.now k }
    ensures first { (k : ℕ) → k < result → bound_in leaves.now result < bound_in leaves.now k }
{
    let mut place = 0;
    let mut low = leaves[0].bound;
    for i in 1..leaves.len() {
        let bound = leaves[i].bound;
        if bound < low {
            place = i;
            low = bound;
        }
    }
    place
}

/// Whether so many replacements are known to turn the outcome.
fn is_met(upper: Option<u32>, low: u32) -> bool
    ensures { IsTrue result ↔ (upper ≡ Some low) }
{
    match upper {
        Some(known) => known == low,
        None => false,
    }
}

/// Whether the leaf has a whole point.
fn is_at_point(leaf: &Leaf) -> bool
    ensures { IsTrue result ↔ ((q : AValues) × (values_of leaf.now.point ≡ Some q) × IsWhole q) }
{
    match &leaf.point {
        Some(point) => point.den == 1,
        None => false,
    }
}

/// Whether the tree, which has so many nodes, may grow by the kids of the leaf.
fn has_room(race: &Race<'_>, leaf: &Leaf, nodes: u32, budget: u32) -> bool
    requires few { nodes ≤ MOST_NODES }
    ensures { IsTrue result ↔ (nodes + growth_at (election_of race.now) (node_at leaf.now) ≤ budget) }
{
    let kids = match kid_count(race, &leaf.start.goal) {
        Some(count) => count,
        None => 2,
    };
    budget >= nodes && kids <= (budget - nodes) as usize
}
