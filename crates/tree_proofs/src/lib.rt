//! What a tree of bounds proves.
//!
//! A split proves what all its kids do, a branch what both its halves do, and a cut what its multipliers do
//! (`specs/Proving.antt`). Where a tree proves t at the root, no alteration of fewer than t replacements makes a complete
//! goal hold: that is the law, and the reason why a printed tree shows that no fewer replacements turn the outcome. The
//! crate stands on the cut test of `dual_bound` and the trees of `bound_tree`; it has no code.
#![tactic(auto)]

mod laws;

pub use laws::a_proved_tree_rules_out_shorter_alterations;
