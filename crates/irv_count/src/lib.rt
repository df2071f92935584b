//! Instant runoff: who holds how many ballots, which orders of elimination are legal, and the orders by a choice at the ties.
//!
//! Each ballot is held by the first candidate on it that still stands, or by none. An order is legal where at each
//! place goes one who holds no more than any other of those left; `legal_order` tells legal orders from others,
//! `count_irv` gives the one that is reported, `count_rounds` also what everybody holds in each round, and
//! `order_against` the one that is against a candidate at each tie. Such an order is one alone, by a law of this crate.
//! Each round takes one pass over the runs of equal ballots. Sets of candidates are whole numbers whose bit x stands
//! for x. The crate stands on `ballot_form`.
#![tactic(auto)]

mod held;
mod laws;
mod legal;
mod orders;
mod standing;

pub use held::held_counts;
pub use laws::an_order_by_a_choice_is_one;
pub use legal::{is_order, legal_order};
pub use orders::{count_irv, count_rounds, order_against};
pub use standing::{all_of, stands_in, without};
