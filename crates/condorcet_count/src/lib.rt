//! Condorcet: for each two candidates how many ballots prefer the one to the other, and who is chosen in all its pairs.
//!
//! The counts are those that the definition names, made in one pass over the runs of equal ballots. The reported
//! outcome gives each tied pair to the lower number; it is the candidate that is chosen in all its pairs, and none
//! exactly where there is none. It is proved to be an outcome that some settling of the pairs gives. The crate stands
//! on `ballot_form`.
#![tactic(auto)]

mod ballots;
mod matrix;
mod outcome;

pub use matrix::{Matrix, pairs};
pub use outcome::condorcet_outcome;
