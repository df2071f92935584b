//! The search for the margin of an election.
//!
//! `deepen` grows a tree of bounds from the root. At each turn the first leaf with the least bound is split by the cover
//! of its goal, or branched by a feature, until the tree proves that nothing turns the outcome, or as much as is known to
//! turn it, or as much as the point of a leaf costs; or until it has no room, or is too deep. The crate promises what
//! such a tree is, and that a search ends just where its definition says: the tree proves the number, each of its cuts is
//! tight, nothing in it grew for nothing, and a whole point becomes replacements that turn the outcome, as many as the
//! tree proves. The tree is grown in place, and its leaves are found by walking it. The crate stands on `search_leaves`
//! for the leaves, on `search_theory` for what is known of them, and on `bound_tree` for the tree.
#![tactic(auto)]

mod cut_numbers;
mod growths;
mod search;
mod turns;

pub use search::deepen;
