// The search.
ghost use Rattle.std.specs.Prelude.{◌≡◌, ◌≤◌, ℕ, [], IfOk};
ghost use Rattle.bound_tree.specs.Plain.{Cut, Plain as APlain};
ghost use Rattle.bound_tree.specs.declared.bound.TheConstants.{MOST_NODES};
ghost use Rattle.goal_rows.specs.Races.{IsRace, election_of};
ghost use Rattle.search_theory.specs.Ends.{IsKnown, Problem as AProblem};
ghost use Rattle.search_leaves.specs.Found.{EndsSo, IsFound, problem_of};
ghost use Rattle.suffix_search.specs.Searches.{IsPointLeaf, IsRunning, IsTurn, IsWitnessOf, StopsSo};
ghost use Rattle.suffix_search.specs.declared.turns.Turn.TheVariants as turns;

use crate::growths::grow;
use crate::turns::{Stop, Turn, decide};
use bound_tree::{BoundTree, MOST_NODES, Multipliers};
use goal_rows::parts::Race;
use mov_base::Memory;
use search_leaves::{Leaf, Tools, first_leaf};
use std::alloc::Global;
use witness_build::{End, Found, Witness, from_point};

/// Searches for the margin of a race, where so many replacements are known to turn the outcome, if any. It grows a tree of
/// bounds of at most `budget` nodes, which is at least 1 and at most `MOST_NODES`, until it proves that nothing turns the
/// outcome, or that no fewer replacements do than are known, or than a point stands for; or until the tree can't grow.
/// Each cut of the tree is tight, and nothing in it grew for nothing. A wide number doesn't end
/// a search.
pub fn deepen(
    alloc: Global,
    race: &Race<'_>,
    upper: Option<u32>,
    budget: u32,
) -> Result<Found, Memory>
    requires race { IsRace race.now }
    requires known { IsKnown (problem_of race.now upper budget) }
    requires some { 1 ≤ budget }
    requires most { budget ≤ MOST_NODES }
    ensures { IfOk result (IsFound (problem_of race.now upper budget)) }
{
    let mut tools = Tools::new(alloc)?;
    let mut leaves = first_leaves(alloc, race)?;
    let mut tree = BoundTree::leaf(alloc, Multipliers::new(alloc));
    'turns: loop {
        match decide(race, leaves.as_slice(), &tree, upper, budget) {
            Turn::Stop(low, stop) => return found(alloc, race, tree, leaves.as_slice(), low, stop),
            Turn::Grow(place) => grow(alloc, race, &mut tools, &mut tree, &mut leaves, place)?,
        }
    }
}

/// The leaf with which a search begins, alone.
fn first_leaves(alloc: Global, race: &Race<'_>) -> Result<Vec<Leaf>, Memory>
    requires race { IsRace race.now }
    ensures { (p : AProblem) → p.election ≡ election_of race.now → 1 ≤ p.budget →
        IfOk result (λ leaves. IsRunning p (Cut []) leaves.items) }
{
    let mut leaves = Vec::new(alloc);
    leaves.push(first_leaf(alloc, race)?)?;
    Ok(leaves)
}

/// What a search found that stops so.
fn found(
    alloc: Global,
    race: &Race<'_>,
    tree: BoundTree,
    leaves: &[Leaf],
    low: u32,
    stop: Stop,
) -> Result<Found, Memory>
    requires race { IsRace race.now }
    requires search { (p : AProblem) × (p.election ≡ election_of race.now) × IsKnown p × IsRunning p tree leaves.now
        × IsTurn p tree leaves.now (turns.Stop low stop) }
    ensures { (p : AProblem) → p.election ≡ election_of race.now → IsKnown p → IsRunning p tree leaves.now →
        IsTurn p tree leaves.now (turns.Stop low stop) → IfOk result (IsFound p) }
{
    let end = end_of(alloc, race, leaves, stop)?;
    Ok(Found { tree, low, end })
}

/// How a search ended that stops so.
fn end_of(alloc: Global, race: &Race<'_>, leaves: &[Leaf], stop: Stop) -> Result<End, Memory>
    requires race { IsRace race.now }
    requires search { (p : AProblem) × (tree : APlain) × (low : ℕ) × (p.election ≡ election_of race.now)
        × IsRunning p tree leaves.now × StopsSo p tree leaves.now low stop }
    ensures { (p : AProblem) (tree : APlain) (low : ℕ) → p.election ≡ election_of race.now →
        IsRunning p tree leaves.now → StopsSo p tree leaves.now low stop → IfOk result (EndsSo p tree low) }
{
    match stop {
        Stop::Nothing => Ok(End::Nothing),
        Stop::Met => Ok(End::Met),
        Stop::AtPoint(place) => Ok(End::AtPoint(witness_of(alloc, race, &leaves[place])?)),
        Stop::Budget => Ok(End::Budget),
        Stop::Depth => Ok(End::Depth),
    }
}

/// The replacements that the point of a leaf stands for.
fn witness_of(alloc: Global, race: &Race<'_>, leaf: &Leaf) -> Result<Witness, Memory>
    requires race { IsRace race.now }
    requires point { IsPointLeaf (election_of race.now) leaf.now }
    ensures { IfOk result (IsWitnessOf (election_of race.now) leaf.now) }
{
    match &leaf.point {
        Some(point) => from_point(alloc, race, &leaf.start, point),
        None => unreachable!(),
    }
}
