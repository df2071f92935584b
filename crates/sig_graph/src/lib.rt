//! Paths and flows over the places of a suffix.
//!
//! A suffix of m candidates has the places 1 to m, and a graph: the start 0, the places, and an arc from each of these
//! to each later place. The places of a ballot's signature are a path of it, and replacements whose new ballots have
//! signatures are a flow. The crate promises the greatest sum of weights over all paths, whether numbers are a flow,
//! the paths that a flow is made of, one after another by a rule that leaves no choice, and the ballot of a path. Laws
//! say that paths make flows and flows are made of paths, that a flow brings no more than its total times the best
//! path, and that the rows of a suffix are read from the arcs of signatures. The crate stands on `ballot_form`, for
//! ballots, and on `signature_class`, for signatures.
#![tactic(auto)]

mod arcs;
mod ballots;
mod flows;
mod laws;
mod walks;
mod weights;

pub use arcs::{arc_count, arc_index};
pub use ballots::path_ballot;
pub use flows::is_flow;
pub use laws::{
    arcs_are_numbered, arcs_have_at_most_the_total, best_is_one, flow_brings_what_its_paths_bring,
    paths_make_a_flow, paths_use_arcs_once, rows_by_arcs, splits_are_walks,
};
pub use walks::{Path, PathList, split_flow};
pub use weights::{WEIGHT_LIMIT, best_path};
