// Leaves, and how they are made.
ghost use Rattle.std.specs.Prelude.{◌≡◌, ◌≢◌, ◌+◌, ◌↔◌, IfOk, IsTrue, if◌then◌else◌, length};
ghost use Rattle.goal_rows.specs.Elections.{Election};
ghost use Rattle.goal_rows.specs.Nodes.{without_limits};
ghost use Rattle.goal_rows.specs.Races.{IsGroundIn, IsRace, election_of};
ghost use Rattle.goal_rows.specs.declared.goals.Goal.TheVariants.{Root as TheRoot};
ghost use Rattle.dual_bound.specs.CutTest.{IsBound};
ghost use Rattle.node_bounds.specs.Ceilings.{IsCeiling};
ghost use Rattle.search_theory.specs.Branchings.{IsCompleteCell, is_pair as is_some_pair};
ghost use Rattle.search_theory.specs.Ends.{IsKnown, Problem};
ghost use Rattle.search_theory.specs.Leaves.{IsCutTo, IsLeaf};
ghost use Rattle.search_theory.specs.Spots.{has_cover as has_some_cover};
ghost use Rattle.search_leaves.specs.Kept.{IsSeed, leaf_of, node_in};
ghost use Rattle.search_leaves.specs.NewLeaves.{AreOwn, IsAnswer, IsCellSeed, IsLeafOf, IsOpenSeed, IsPairSeed};
ghost use Rattle.search_leaves.specs.NewLeaves.{IsSomeSeed, leaf_from};
ghost use Rattle.search_leaves.specs.Rooms.{HasRoom};

use crate::seeds::Seed;
use crate::tools::Tools;
use bound_tree::Multipliers;
use dual_bound::{Scratch, bound_of, cell_cut, is_cell};
use goal_rows::parts::{Ground, Race};
use goal_rows::{Goal, ground, is_complete, kid_count, program_of};
use lex_dual::{SolveFault, Solved, solve_in};
use mov_base::Memory;
use row_program::{Limit, Point};
use std::alloc::{AllocError, Global};
use witness_build::cell_point;

/// A leaf of a search.
#[derive(Drop)]
pub struct Leaf {
    /// What is known of its goal.
    pub start: Ground,
    /// Its limits.
    pub limits: Vec<Limit>,
    /// Its multipliers.
    pub multipliers: Multipliers,
    /// Their bound.
    pub bound: u32,
    /// The least point of a complete goal, if the node has one and its program was solved.
    pub point: Option<Point>,
    /// Its depth; the root has 1.
    pub depth: u32,
}

/// The leaf with which a search begins: the root, which nothing cuts.
pub fn first_leaf(alloc: Global, race: &Race<'_>) -> Result<Leaf, Memory>
    requires race { IsRace race.now }
    ensures ground { IfOk result (λ leaf. IsGroundIn (election_of race.now) leaf.start) }
    ensures node { IfOk result (λ leaf. (leaf_of leaf).node ≡ without_limits TheRoot) }
    ensures leaf { IfOk result (λ leaf. (p : Problem) → p.election ≡ election_of race.now → IsLeaf p (leaf_of leaf)) }
    ensures ceiling { IfOk result (λ leaf. IsCeiling (election_of race.now) (without_limits TheRoot) leaf.bound) }
    ensures depth { IfOk result (λ leaf. leaf.depth ≡ 1) }
{
    let start = ground(alloc, race, &Goal::Root)?;
    Ok(Leaf {
        start,
        limits: Vec::new(alloc),
        multipliers: Multipliers::new(alloc),
        bound: 0,
        point: None,
        depth: 1,
    })
}

/// The leaf of a seed, of a goal below the root.
pub fn new_leaf(
    alloc: Global,
    race: &Race<'_>,
    tools: &mut Tools,
    seed: Seed,
) -> Result<Leaf, Memory>
    requires race { IsRace race.now }
    requires seed { IsSeed (election_of race.now) seed }
    requires below { seed.start.goal ≢ TheRoot }
    ensures ground { IfOk result (λ leaf. leaf.start ≡ seed.start) }
    ensures limits { IfOk result (λ leaf. leaf.limits ≡ seed.limits) }
    ensures leaf { IfOk result (λ leaf. (p : Problem) → p.election ≡ election_of race.now → IsKnown p →
        IsLeaf p (leaf_of leaf)) }
    ensures cut { IfOk result (λ leaf. IsCutTo (election_of race.now) seed.bound (leaf_of leaf)) }
    ensures multipliers { IfOk result (λ leaf. AreOwn (election_of race.now) seed leaf.multipliers) }
    ensures depth { IfOk result (λ leaf. leaf.depth ≡ seed.depth) }
{
    if is_pair(&seed.start.goal) {
        pair_leaf(alloc, &mut tools.scratch, seed)
    } else if is_complete_cell(race, &seed) {
        cell_leaf(alloc, &mut tools.scratch, seed)
    } else {
        let covered = has_cover(race, &seed.start.goal);
        solved_leaf(alloc, tools, seed, covered)
    }
}

/// Whether the goal is a pair.
fn is_pair(goal: &Goal) -> bool
    ensures { result ≡ is_some_pair goal.now }
{
    match goal {
        Goal::Pair(_, _) => true,
        Goal::Root | Goal::Suffix(_) | Goal::Cover(_) => false,
    }
}

/// Whether the goal has a cover.
fn has_cover(race: &Race<'_>, goal: &Goal) -> bool
    ensures { result ≡ has_some_cover (election_of race.now) goal.now }
{
    kid_count(race, goal).is_some()
}

/// Whether the node is a cell of a complete goal.
fn is_complete_cell(race: &Race<'_>, seed: &Seed) -> bool
    requires { IsSeed (election_of race.now) seed.now }
    ensures { IsTrue result ↔ IsCompleteCell (election_of race.now) (node_in seed.now) }
{
    is_complete(race, &seed.start.goal) && is_cell(&seed.start, seed.limits.as_slice())
}

/// The leaf of a pair: its multiplier is 1, and it keeps no point.
fn pair_leaf(alloc: Global, scratch: &mut Scratch, seed: Seed) -> Result<Leaf, Memory>
    requires seed { (e : Election) × IsPairSeed e seed }
    requires room { HasRoom scratch.old }
    ensures leaf { (e : Election) → IsPairSeed e seed → IfOk result (IsLeafOf e seed) }
    ensures room { scratch.new ≡ scratch.old }
{
    let mut multipliers = Multipliers::new(alloc);
    multipliers.push(1)?;
    Ok(leaf_with(scratch, seed, multipliers, None))
}

/// The leaf of a cell of a complete goal.
fn cell_leaf(alloc: Global, scratch: &mut Scratch, seed: Seed) -> Result<Leaf, Memory>
    requires seed { (e : Election) × IsCellSeed e seed }
    requires room { HasRoom scratch.old }
    ensures leaf { (e : Election) → IsCellSeed e seed → IfOk result (IsLeafOf e seed) }
    ensures room { scratch.new ≡ scratch.old }
{
    let multipliers = cell_cut(alloc, &seed.start, seed.limits.as_slice())?;
    let point = cell_point(alloc, &seed.start, seed.limits.as_slice())?;
    Ok(leaf_with(scratch, seed, multipliers, point))
}

/// The leaf of a node whose program is solved where the method meets no wide number; whether its goal has a cover.
fn solved_leaf(alloc: Global, tools: &mut Tools, seed: Seed, covered: bool) -> Result<Leaf, Memory>
    requires { (e : Election) × IsOpenSeed e covered seed }
    ensures { (e : Election) → IsOpenSeed e covered seed → IfOk result (IsLeafOf e seed) }
{
    let program = program_of(alloc, &seed.start, seed.limits.as_slice())?;
    match solve_in(alloc, &program, &mut tools.buffers) {
        Ok(solved) => Ok(answered_leaf(&mut tools.scratch, seed, covered, solved)),
        Err(SolveFault::Wide { .. }) => Ok(inherited_leaf(seed)),
        Err(SolveFault::Memory) => Err(AllocError),
    }
}

/// The leaf of a node whose program is solved, by what the method answered. It keeps the point of a goal without a
/// cover.
fn answered_leaf(scratch: &mut Scratch, seed: Seed, covered: bool, solved: Solved) -> Leaf
    requires seed { (e : Election) × IsOpenSeed e covered seed }
    requires answer { IsAnswer seed.start seed.limits.items solved }
    requires room { HasRoom scratch.old }
    ensures leaf { (e : Election) → IsOpenSeed e covered seed → IsLeafOf e seed result }
    ensures room { scratch.new ≡ scratch.old }
{
    match solved {
        Solved::Best {
            multipliers,
            point,
            ..
        } => leaf_with(scratch, seed, multipliers, unless_covered(covered, point)),
        Solved::Never { multipliers } => leaf_with(scratch, seed, multipliers, None),
    }
}

/// The point of a goal, or none where it has a cover.
fn unless_covered(covered: bool, point: Point) -> Option<Point>
    ensures { result ≡ (if covered then None else Some point) }
{
    if covered { None } else { Some(point) }
}

/// The leaf with these multipliers, their bound, and this point.
fn leaf_with(
    scratch: &mut Scratch,
    seed: Seed,
    multipliers: Multipliers,
    point: Option<Point>,
) -> Leaf
    requires seed { IsSomeSeed seed }
    requires one_each { length multipliers ≡ length seed.start.sums + length seed.limits.items }
    requires room { HasRoom scratch.old }
    ensures leaf { result ≡ leaf_from seed multipliers result.bound point }
    ensures bound { (e : Election) → IsSeed e seed → IsBound e (node_in seed) multipliers result.bound }
    ensures room { scratch.new ≡ scratch.old }
{
    let bound = bound_of(
        &seed.start,
        seed.limits.as_slice(),
        multipliers.as_slice(),
        scratch,
    );
    Leaf {
        start: seed.start,
        limits: seed.limits,
        multipliers,
        bound,
        point,
        depth: seed.depth,
    }
}

/// The leaf that keeps what it inherits.
fn inherited_leaf(seed: Seed) -> Leaf
    ensures { result ≡ leaf_from seed seed.inherited seed.bound None }
{
    Leaf {
        start: seed.start,
        limits: seed.limits,
        multipliers: seed.inherited,
        bound: seed.bound,
        point: None,
        depth: seed.depth,
    }
}
