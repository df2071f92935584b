//! The trees by which a number of replacements is proved too small: a split by a goal's cover, a branch by a feature, a cut
//! with its multipliers; and the multipliers themselves.
//!
//! Contracts see a tree as plain data (`specs/Plain.antt`). The nodes of a bound tree are numbered from 0 in preorder; it has
//! at most 100,000 of them, and a depth of at most 256. The crate promises that a bound tree grows at just the cut that was
//! named, by just the kids that were given, or stays as it was; that each fault comes exactly where the bounds say; and that
//! a node, its depth, the count and the depth of the tree are exact. It stands on `mov_base`, through whose list and owner a tree
//! holds its kids, on `row_program` for the features, and on `exact_num` for the size at which a multiplier is wide.
#![tactic(auto)]

mod bound;
mod fault;
mod find;
mod growth;
mod multipliers;
mod tree;

pub use bound::{BoundTree, MOST_DEPTH, MOST_NODES};
pub use fault::GrowFault;
pub use multipliers::{MultiplierLists, Multipliers};
pub use tree::Tree;
