//! The ballot file: reads it into a contest, and prints a contest in the plain form, by `csv` over bytes in memory.
//!
//! `read_ballots` answers exactly what the definition of reading in `specs/` says of the file's records: the contest, or the first
//! fault with the number of its record. `print_ballots` gives exactly the plain form, and the definition of reading says of it
//! just the contest that was printed. Want of memory aside, neither has another answer; an error of `csv` is given as want of
//! memory. The crate stands on `mov_base`, on `ballot_form` and on the reader of numbers of `text_lines`.
#![tactic(auto)]

mod cells;
mod count;
mod fault;
mod file;
mod head;
mod limits;
mod marks;
mod names;
mod plain;
mod print;
mod record;
mod records;

pub use fault::{BallotFault, BallotKind};
pub use file::read_ballots;
pub use limits::LONGEST_FILE;
pub use print::print_ballots;
