//! How far multipliers can cut a node, and how far those of its program do.
//!
//! The ceiling of a node is the least cost of its program's points, rounded up (`specs/Ceilings.antt`). Laws tie it to
//! the cut test. The multipliers of the solved program cut the node up to its ceiling, and no multipliers cut it
//! further, so the ceiling is their bound; the bound of a pair with the multiplier 1 is the pair's ceiling too. A
//! node's multipliers, with zeros for what is new (`specs/Inherited.antt`), cut what it is split into exactly as far
//! as itself; so what a node is split into has no lower ceiling than the number to which the node was cut. A cell has
//! one point at most, the values that its limits leave, and its ceiling is what these cost, or one more than there are
//! ballots. The crate stands on the programs of `goal_rows`, the cut test of `dual_bound` and the answers of the exact
//! method.
#![tactic(auto)]

mod laws;

pub use laws::{
    a_ceiling_is_one_number, a_cell_has_one_point, a_cells_ceiling,
    a_cut_at_the_ceiling_is_the_bound, a_cut_is_at_most_the_ceiling, a_pairs_bound_is_its_ceiling,
    no_ceiling_is_below_a_cut_above_it, solved_multipliers_cut_up_to_the_ceiling,
    zeros_change_no_cut,
};
