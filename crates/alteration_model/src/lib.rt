//! Replacements of ballots.
//!
//! Claimed replacements are judged: they are an alteration of a roll, or the first fault of the first bad one is told. An alteration
//! is applied to its roll. The crate stands on `ballot_form`, which has the definitions of an alteration and of the ballots after it.
#![tactic(auto)]

mod alterations;
mod applied;
mod check;
mod faults;
mod laws;
mod puts;

pub use alterations::Alteration;
pub use applied::apply;
pub use check::check_alteration;
pub use faults::AlterFault;
pub use laws::{
    a_first_fault_is_one, an_alteration_is_no_longer_than_the_roll,
    puts_without_fault_are_an_alteration,
};
pub use puts::{Put, PutList};
