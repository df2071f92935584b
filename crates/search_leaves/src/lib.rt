//! The leaves of a search: how they are made and how they grow.
//!
//! A leaf has the ground of its goal, its limits, multipliers with their bound, and for a complete goal its least point
//! if it has one. `first_leaf` is the root. `new_leaf` makes one of a seed: a pair has the multiplier 1, a cell of a
//! complete goal those of its values, and another node those of its solved program; where the method meets a wide
//! number, or the goal has too many classes, the leaf keeps what it inherits. `seeds_by_cover` and `seeds_by_branch` are
//! the nodes into which a leaf is split or branched, with the multipliers that they inherit: the leaf's own, with zeros
//! for what is new, which have its bound. `branching_of` says where a leaf is branched. What a leaf is, and what is known
//! of it, is defined in `search_theory`; what a search answers stands here (`specs/Found.antt`), since both searches
//! stand on this crate.
#![tactic(auto)]

mod branchings;
mod copies;
mod halves;
mod leaves;
mod seeds;
mod tools;

pub use branchings::{Branching, branching_of};
pub use halves::seeds_by_branch;
pub use leaves::{Leaf, first_leaf, new_leaf};
pub use seeds::{Seed, seeds_by_cover};
pub use tools::Tools;
