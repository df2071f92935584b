//! What all crates share: the one list type that contracts see as a list, how its items are copied, an owner of one value, the error
//! for want of memory, and, in `specs/`, sums and the greatest sum of at most so many numbers.
//!
//! It promises that a list holds just what was pushed, in order, that a copy equals its source, and that a write through what a list or
//! an owner lends changes that item alone. A type may hold itself through either. It stands on nothing.
#![tactic(auto)]

mod copies;
mod list;
mod one;

pub use copies::Copies;
pub use list::List;
pub use one::One;

/// Want of memory, where an error stands by itself.
pub type Memory = std::alloc::AllocError;
