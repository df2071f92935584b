// The two halves of a leaf.
ghost use Rattle.std.specs.Prelude.{◌≡◌, ◌++◌, ◌∷◌, [], All, IfOk, map};
ghost use Rattle.goal_rows.specs.Elections.{Election};
ghost use Rattle.goal_rows.specs.Nodes.{high_half, low_half, with_limit};
ghost use Rattle.search_leaves.specs.Kept.{CanHalve, IsGrowing, IsHalf, IsSeedOf, branching_in, node_at, node_in};

use crate::branchings::Branching;
use crate::copies::ground_copy;
use crate::leaves::Leaf;
use crate::seeds::Seed;
use bound_tree::Multipliers;
use mov_base::Memory;
use row_program::Limit;
use std::alloc::Global;

/// The halves of a leaf: of its nodes the one in which there are at most as many of the branching's feature as its value
/// says, and then the one in which there are more.
pub fn seeds_by_branch(
    alloc: Global,
    leaf: &Leaf,
    branching: Branching,
) -> Result<Vec<Seed>, Memory>
    requires { (e : Election) × IsGrowing e leaf.now × CanHalve e (node_at leaf.now) (branching_in branching) }
    ensures nodes { IfOk result (λ seeds. map node_in seeds.items
        ≡ low_half (node_at leaf.now) branching.feature branching.value
        ∷ high_half (node_at leaf.now) branching.feature branching.value ∷ []) }
    ensures seeds { (e : Election) → IsGrowing e leaf.now → CanHalve e (node_at leaf.now) (branching_in branching) →
        IfOk result (λ seeds. All (IsSeedOf e leaf.now) seeds.items) }
{
    let low = Limit {
        feature: branching.feature,
        at_most: true,
        value: branching.value,
    };
    let high = Limit {
        feature: branching.feature,
        at_most: false,
        value: branching.value + 1,
    };
    let mut seeds = Vec::new(alloc);
    seeds.push(half_seed(alloc, leaf, low)?)?;
    seeds.push(half_seed(alloc, leaf, high)?)?;
    Ok(seeds)
}

/// The node of a leaf with one limit more.
fn half_seed(alloc: Global, leaf: &Leaf, limit: Limit) -> Result<Seed, Memory>
    requires { (e : Election) × IsGrowing e leaf.now × IsHalf e (node_at leaf.now) limit }
    ensures node { IfOk result (λ seed. node_in seed ≡ with_limit (node_at leaf.now) limit) }
    ensures seed { (e : Election) → IsGrowing e leaf.now → IsHalf e (node_at leaf.now) limit →
        IfOk result (IsSeedOf e leaf.now) }
{
    let start = ground_copy(alloc, &leaf.start)?;
    let mut limits = Vec::from_slice(alloc, leaf.limits.as_slice())?;
    limits.push(limit)?;
    let inherited = zero_behind(alloc, &leaf.multipliers)?;
    Ok(Seed {
        start,
        limits,
        inherited,
        bound: leaf.bound,
        depth: leaf.depth + 1,
    })
}

/// These multipliers, and then 0.
fn zero_behind(alloc: Global, first: &Multipliers) -> Result<Multipliers, Memory>
    ensures { IfOk result (λ made. made ≡ first.now ++ 0 ∷ []) }
{
    let mut made = first.copy()?;
    made.push(0)?;
    Ok(made)
}
