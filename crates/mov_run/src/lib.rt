//! One run of the program, from the words and the files to the text and the status.
//!
//! `run` does all that the program does, and its contract says what a run leaves, for each command and each way to end.
//! `tally_text` is the text of a contest's tally under a rule: its scores, pairs, votes and seats, or rounds, by the
//! definitions of those counts, and the reported outcome; a contest has one such text. The crate stands on the outside,
//! on the ballot file, on certificates and their checker, and on the crates that count and define the margin.
#![tactic(auto)]

mod answers;
mod laws;
mod loads;
mod run_faults;
mod runs;
mod tally;
mod tally_pairs;
mod tally_rounds;
mod tally_scores;
mod tally_seats;
mod verdicts;

pub use laws::a_tally_is_one_text;
pub use mov_words::{Job, WordFault, parse};
pub use run_faults::RunFault;
pub use runs::{Output, Status, run};
pub use tally::tally_text;
