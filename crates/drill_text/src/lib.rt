//! The summary of a drill: the margins of a contest that a seed makes, under each rule.
//!
//! `drill_text` makes the contest, searches for its margin under each rule, and writes for each the claim and the number
//! of nodes. It promises that each line tells of a certificate of that contest which has all that `margin_solve` promises,
//! and says whether some claim is a pair of bounds. The crate stands on `ballot_make` for the contest and on
//! `margin_solve` for the certificates.
#![tactic(auto)]

mod drills;
mod limits;

pub use drills::drill_text;
pub use limits::{DRILL_BALLOTS, DRILL_BUDGET, DRILL_CANDIDATES, DRILL_SEATS};
