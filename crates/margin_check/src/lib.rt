//! Certificates are judged, whoever made them.
//!
//! `check` reads nothing of how a certificate came about. It promises that the verdict is valid exactly where all parts
//! of validity hold (`specs/Validity.antt`), and otherwise the first part that fails, with its line; and that what a
//! valid certificate claims is so: the margin, or that nothing turns the outcome, or bounds of the margin. A tree is
//! judged in two walks over its nodes, first for their shapes and then for the cut test. So far certificates of
//! plurality, Borda and D'Hondt are judged; those of the other rules are refused before all else. The crate stands on
//! `cert_text`, `alteration_model`, `goal_rows` and `dual_bound`.
#![tactic(auto)]

mod checker;
mod claim;
mod judge;
mod laws;
mod verdict;
mod walk;

pub use checker::check;
pub use laws::{
    a_valid_certificate_is_true, a_verdict_is_one, shape_and_cuts_are_a_proof,
    visits_are_the_nodes_in_preorder,
};
pub use verdict::{Reason, Verdict};
