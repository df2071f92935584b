//! The cut test.
//!
//! Numbers, one for each row of a goal and each limit of a node, show that no list of fewer than so many replacements
//! meets the node: the values before any replacement, times these numbers, and the largest gains of so many ballots
//! together stay below 0. The definition (`specs/CutTest.antt`) takes the gains ballot by ballot, each over all valid
//! new ballots; `cuts` is exactly this test, and `bound_of` the greatest number at which it passes. They work over the
//! classes of ballots, in a `Scratch` that is made before, and take no memory. Where the test passes, no shorter list
//! of replacements meets the node. A node is any goal that is reached from the root, with limits on its features. What
//! a new ballot brings at most is what the gainer alone does, or the candidate of a cover alone, or the best path of a
//! suffix; what an old ballot costs is read from its key. A node whose limits leave each variable of its program one
//! value is a cell: `is_cell` tells cells, and `cell_cut` gives their multipliers (`specs/CellCuts.antt`), whose bound
//! is what the values cost where these break no row, and else one more than there are ballots. The crate stands on
//! `goal_rows`, on `sig_graph` for paths, on `row_program` for limits, and on `bound_tree` for lists of multipliers.
#![tactic(auto)]

mod arc_weights;
mod ballot_costs;
mod bases;
mod cell_cuts;
mod cell_rows;
mod cell_variables;
mod cells;
mod class_gains;
mod features;
mod largest;
mod laws;
mod nodes;
mod scratch;
mod weighing;

pub use cell_cuts::cell_cut;
pub use cell_variables::{cell_values, features as variable_features};
pub use cells::{high_end, is_cell, low_end};
pub use laws::{
    a_bound_is_one_number, a_cut_holds_below, a_cut_is_sound, a_ground_has_few_classes,
    gains_are_one_list,
};
pub use nodes::{bound_of, cuts};
pub use scratch::Scratch;
