//! Plurality and Borda: the scores, and who wins by them.
//!
//! The scores are the sums of points that the definitions name, and the winner is the lower-numbered of those with the greatest.
//! The crate stands on `ballot_form`.
#![tactic(auto)]

mod scores;
mod winner;

pub use scores::{borda, plurality};
pub use winner::score_winner;
