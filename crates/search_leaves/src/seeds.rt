// Nodes that are to become leaves.
ghost use Rattle.std.specs.Prelude.{◌≡◌, ◌++◌, ℕ, [], All, IfOk, Some, map, replicate, true};
ghost use Rattle.goal_rows.specs.Goals.{IsKid, cover_of};
ghost use Rattle.goal_rows.specs.LongerKeys.{goals_of};
ghost use Rattle.goal_rows.specs.Nodes.{without_limits};
ghost use Rattle.goal_rows.specs.Races.{IsGroundIn, IsGroundOf, IsRace, election_of};
ghost use Rattle.search_theory.specs.Spots.{cover_list, has_cover};
ghost use Rattle.search_leaves.specs.Kept.{IsGrowing, IsSeedOf, node_in};

use crate::leaves::Leaf;
use bound_tree::Multipliers;
use goal_rows::parts::{Ground, Race};
use goal_rows::{kid_grounds, row_count};
use mov_base::Memory;
use row_program::{Feature, Limit};
use std::alloc::Global;

/// A node that is to become a leaf.
#[derive(Drop)]
pub struct Seed {
    /// What is known of its goal.
    pub start: Ground,
    /// Its limits.
    pub limits: Vec<Limit>,
    /// Multipliers that it inherits: its parent's, with zeros for what is new.
    pub inherited: Multipliers,
    /// Their bound, which is its parent's.
    pub bound: u32,
    /// Its depth.
    pub depth: u32,
}

/// The nodes into which a leaf is split: the goals of its cover, in order, without limits. Its goal has a cover, and it
/// has no limits.
pub fn seeds_by_cover(alloc: Global, race: &Race<'_>, leaf: &Leaf) -> Result<Vec<Seed>, Memory>
    requires race { IsRace race.now }
    requires leaf { IsGrowing (election_of race.now) leaf.now }
    requires covered { has_cover (election_of race.now) leaf.now.start.goal ≡ true }
    requires plain { leaf.now.limits.items ≡ [] }
    ensures nodes { IfOk result (λ seeds.
        map node_in seeds.items ≡ map without_limits (cover_list (election_of race.now) leaf.now.start.goal)) }
    ensures seeds { IfOk result (λ seeds. All (IsSeedOf (election_of race.now) leaf.now) seeds.items) }
{
    match kid_grounds(alloc, race, &leaf.start.goal)? {
        Some(starts) => kid_seeds(alloc, race, leaf, starts.into_vec()),
        None => Ok(Vec::new(alloc)),
    }
}

/// The nodes of the goals of a leaf's cover, which have these grounds.
fn kid_seeds(
    alloc: Global,
    race: &Race<'_>,
    leaf: &Leaf,
    starts: Vec<Ground>,
) -> Result<Vec<Seed>, Memory>
    requires race { IsRace race.now }
    requires leaf { IsGrowing (election_of race.now) leaf.now }
    requires plain { leaf.now.limits.items ≡ [] }
    requires cover { cover_of (election_of race.now) leaf.now.start.goal ≡ Some (goals_of starts.items) }
    requires values { All (IsGroundOf (election_of race.now)) starts.items }
    ensures nodes { IfOk result (λ seeds. map node_in seeds.items ≡ map without_limits (goals_of starts.items)) }
    ensures seeds { IfOk result (λ seeds. All (IsSeedOf (election_of race.now) leaf.now) seeds.items) }
{
    let mut seeds = Vec::new(alloc);
    for start in starts {
        seeds.push(kid_seed(alloc, race, leaf, start)?)?;
    }
    Ok(seeds)
}

/// The node of a goal that a leaf is split into.
fn kid_seed(alloc: Global, race: &Race<'_>, leaf: &Leaf, start: Ground) -> Result<Seed, Memory>
    requires race { IsRace race.now }
    requires leaf { IsGrowing (election_of race.now) leaf.now }
    requires plain { leaf.now.limits.items ≡ [] }
    requires ground { IsGroundIn (election_of race.now) start }
    requires kid { (place : ℕ) × IsKid (election_of race.now) leaf.now.start.goal place start.goal }
    ensures node { IfOk result (λ seed. node_in seed ≡ without_limits start.goal) }
    ensures seed { IfOk result (IsSeedOf (election_of race.now) leaf.now) }
{
    let new = row_count(race, &start.goal) - leaf.multipliers.len();
    let inherited = zeros_before(alloc, new, &leaf.multipliers)?;
    Ok(Seed {
        start,
        limits: Vec::new(alloc),
        inherited,
        bound: leaf.bound,
        depth: leaf.depth + 1,
    })
}

/// So many zeros, and then these multipliers.
fn zeros_before(alloc: Global, zeros: usize, more: &Multipliers) -> Result<Multipliers, Memory>
    ensures { IfOk result (λ made. made ≡ replicate zeros 0 ++ more.now) }
{
    let mut made = Multipliers::new(alloc);
    for _i in 0..zeros {
        made.push(0)?;
    }
    for number in more.as_slice() {
        made.push(*number)?;
    }
    Ok(made)
}
