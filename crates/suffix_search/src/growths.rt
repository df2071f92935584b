// How a leaf grows.
ghost use Rattle.std.specs.Prelude.{◌≡◌, ◌≢◌, ◌<◌, ◌≤◌, All, IfOk, IsErrOf, IsOk, OnOk, length, map, true, false};
ghost use Rattle.bound_tree.specs.declared.bound.TheConstants.{MOST_NODES};
ghost use Rattle.bound_tree.specs.declared.fault.GrowFault.TheVariants as faults;
ghost use Rattle.goal_rows.specs.Races.{IsRace, election_of};
ghost use Rattle.goal_rows.specs.declared.goals.Goal.TheVariants.{Root as TheRoot};
ghost use Rattle.search_theory.specs.Ends.{IsKnown, Problem as AProblem};
ghost use Rattle.search_theory.specs.Spots.{has_cover, put_at};
ghost use Rattle.search_leaves.specs.Kept.{IsSeed};
ghost use Rattle.suffix_search.specs.Searches.{AreKids, AreLeavesOf, Grows, IsRunning, MayGrowAt, distance};

use crate::cut_numbers::cut_number;
use bound_tree::{BoundTree, GrowFault, MultiplierLists};
use goal_rows::kid_count;
use goal_rows::parts::Race;
use mov_base::Memory;
use search_leaves::{Leaf, Seed, Tools, branching_of, new_leaf, seeds_by_branch, seeds_by_cover};
use std::alloc::{AllocError, Global};

/// The leaf at the place grows: its kids come in its place, and in the tree in the place of its node.
pub(crate) fn grow(
    alloc: Global,
    race: &Race<'_>,
    tools: &mut Tools,
    tree: &mut BoundTree,
    leaves: &mut Vec<Leaf>,
    place: usize,
) -> Result<(), Memory>
    requires race { IsRace race.now }
    requires search { (p : AProblem) × (p.election ≡ election_of race.now) × (p.budget ≤ MOST_NODES) × IsKnown p
        × IsRunning p tree.old leaves.old.items × Grows p tree.old leaves.old.items place }
    ensures search { (p : AProblem) → p.election ≡ election_of race.now → p.budget ≤ MOST_NODES → IsKnown p →
        IsRunning p tree.old leaves.old.items → Grows p tree.old leaves.old.items place →
        OnOk result (IsRunning p tree.new leaves.new.items) }
    ensures nearer { (p : AProblem) → p.election ≡ election_of race.now → p.budget ≤ MOST_NODES → IsKnown p →
        IsRunning p tree.old leaves.old.items → Grows p tree.old leaves.old.items place →
        OnOk result (distance p.budget tree.new leaves.new.items < distance p.budget tree.old leaves.old.items) }
{
    let number = cut_number(tree, place as u32);
    let kids = kids_at(alloc, race, tools, tree, &leaves[place], number)?;
    put_in(leaves, place, kids)
}

/// The kids of a leaf, which come into the tree in the place of the node with this number.
fn kids_at(
    alloc: Global,
    race: &Race<'_>,
    tools: &mut Tools,
    tree: &mut BoundTree,
    leaf: &Leaf,
    number: u32,
) -> Result<Vec<Leaf>, Memory>
    requires race { IsRace race.now }
    requires leaf { MayGrowAt (election_of race.now) leaf.now number tree.old }
    ensures { IfOk result (λ kids. AreKids (election_of race.now) leaf.now number tree.old tree.new kids.items) }
{
    if kid_count(race, &leaf.start.goal).is_some() {
        kids_by_cover(alloc, race, tools, tree, leaf, number)
    } else {
        kids_by_branch(alloc, race, tools, tree, leaf, number)
    }
}

/// The kids of a leaf by the cover of its goal.
fn kids_by_cover(
    alloc: Global,
    race: &Race<'_>,
    tools: &mut Tools,
    tree: &mut BoundTree,
    leaf: &Leaf,
    number: u32,
) -> Result<Vec<Leaf>, Memory>
    requires race { IsRace race.now }
    requires covered { has_cover (election_of race.now) leaf.now.start.goal ≡ true }
    requires leaf { MayGrowAt (election_of race.now) leaf.now number tree.old }
    ensures { IfOk result (λ kids. AreKids (election_of race.now) leaf.now number tree.old tree.new kids.items) }
{
    let seeds = seeds_by_cover(alloc, race, leaf)?;
    let kids = new_leaves(alloc, race, tools, seeds)?;
    let lists = multipliers_of(alloc, &kids)?;
    grown(tree.grow_split(number, lists))?;
    Ok(kids)
}

/// The kids of a leaf by a branch.
fn kids_by_branch(
    alloc: Global,
    race: &Race<'_>,
    tools: &mut Tools,
    tree: &mut BoundTree,
    leaf: &Leaf,
    number: u32,
) -> Result<Vec<Leaf>, Memory>
    requires race { IsRace race.now }
    requires bare { has_cover (election_of race.now) leaf.now.start.goal ≡ false }
    requires leaf { MayGrowAt (election_of race.now) leaf.now number tree.old }
    ensures { IfOk result (λ kids. AreKids (election_of race.now) leaf.now number tree.old tree.new kids.items) }
{
    let branching = branching_of(alloc, leaf)?;
    let seeds = seeds_by_branch(alloc, leaf, branching)?;
    let kids = new_leaves(alloc, race, tools, seeds)?;
    let low = kids[0].multipliers.copy()?;
    let high = kids[1].multipliers.copy()?;
    grown(tree.grow_branch(number, branching.feature, branching.value, low, high))?;
    Ok(kids)
}

/// The leaves of these nodes.
fn new_leaves(
    alloc: Global,
    race: &Race<'_>,
    tools: &mut Tools,
    seeds: Vec<Seed>,
) -> Result<Vec<Leaf>, Memory>
    requires race { IsRace race.now }
    requires seeds { All (IsSeed (election_of race.now)) seeds.items }
    requires below { All (λ seed. seed.start.goal ≢ TheRoot) seeds.items }
    ensures { IfOk result (λ leaves. AreLeavesOf (election_of race.now) seeds.items leaves.items) }
{
    let mut leaves = Vec::new(alloc);
    for seed in seeds {
        leaves.push(new_leaf(alloc, race, tools, seed)?)?;
    }
    Ok(leaves)
}

/// The multipliers of the leaves.
fn multipliers_of(alloc: Global, leaves: &[Leaf]) -> Result<MultiplierLists, Memory>
    ensures { IfOk result (λ lists. lists ≡ map (λ leaf. leaf.multipliers) leaves.now) }
{
    let mut lists = MultiplierLists::new(alloc);
    for leaf in leaves {
        lists.push(leaf.multipliers.copy()?)?;
    }
    Ok(lists)
}

/// That a tree grew, which has room and isn't too deep.
fn grown(growth: Result<(), GrowFault>) -> Result<(), Memory>
    requires room { IsErrOf growth faults.TooManyNodes → ⊥ }
    requires shallow { IsErrOf growth faults.TooDeep → ⊥ }
    ensures { IsOk result → IsOk growth }
{
    match growth {
        Ok(()) => Ok(()),
        Err(GrowFault::Memory) => Err(AllocError),
        Err(_) => unreachable!(),
    }
}

/// New leaves in the place of one.
#[tactic(auto, using(crate::proofs::Places::pieces))]
fn put_in(leaves: &mut Vec<Leaf>, place: usize, new: Vec<Leaf>) -> Result<(), Memory>
    requires within { place < length leaves.old.items }
    ensures { OnOk result (leaves.new.items ≡ put_at place (λ leaf. new.items) leaves.old.items) }
{
    let mut new = new;
    let mut rest = leaves.split_off(place + 1)?;
    leaves.truncate(place);
    leaves.append(&mut new)?;
    leaves.append(&mut rest)?;
    Ok(())
}
