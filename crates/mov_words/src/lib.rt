//! What the words of the command line ask for.
//!
//! The first word names a command and is read by hand, without memory. The words after it are read by `clap`: for
//! each command by one that is simple, without help and version options, and whose arguments are required positionals
//! and options with a value. Numbers and the names of rules are then read from the texts. `parse` answers exactly the
//! job of the words, or the first thing that is wrong with them, in the order of `WordFault`; want of memory, once
//! the first word is a command, is its only other answer. The crate stands on the rules and texts of `ballot_form`,
//! the reader of numbers of `text_lines` and the greatest budget of `cert_text`.
#![tactic(auto)]

mod commands;
mod fault;
mod jobs;
mod limits;
mod lines;
mod numbers;
mod rules;

pub use fault::WordFault;
pub use jobs::{Job, parse};
pub use limits::DEFAULT_BUDGET;
