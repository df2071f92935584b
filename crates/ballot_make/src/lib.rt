//! Contests that a seed determines, for drills.
//!
//! `make` gives the contest of a seed, a number of candidates and a number of ballots, the same one at each call. A
//! linear congruential generator draws each ballot: first its length, then its candidates, each at the lesser of two
//! drawn places among those that are left. Each ballot is valid, and of one seed fewer ballots are the first of more.
//! The crate stands on `ballot_form`.
#![tactic(auto)]

mod ballots;
mod contests;
mod draws;
mod laws;
mod names;

pub use contests::make;
pub use laws::a_seed_gives_valid_ballots;
