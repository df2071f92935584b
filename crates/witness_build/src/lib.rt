//! Replacements that meet a complete goal: witnesses that so many turn the outcome.
//!
//! `pair_witness` answers the cheapest replacements of a pair, under every rule that knows pairs: as few as bring its
//! gainer level with its loser, each by the ballot that ranks the gainer alone, of the ballots with the largest gains,
//! lower numbers first at equal gains. `cover_witness` answers, where Condorcet's rule reports no winner, the shortest
//! walk for a cover, which replaces ballots by its candidate alone until no other one is preferred to it by more
//! ballots than prefer it. `last_round` answers, under instant runoff, the ballots of the winner in the last round that
//! are cut off for the one who goes out there: half as many as the winner is ahead. `start_witness` answers where a
//! search begins what is known to turn the outcome: the replacements of the first root pair that the fewest bring
//! level, the shortest walk, or the cuts of the last round. No alteration of fewer replacements than those of pairs,
//! whatever their new ballots, meets a root pair; under instant runoff fewer may do. Gains are counted by classes of
//! ballots, and the ballots to replace are found in one pass over the runs of equal ballots. `cell_point` gives the one
//! point of a cell, and `from_point` the replacements that a whole point of a complete goal stands for, after which the
//! goal's rows hold. `Found` and `End` say what a search answers, and why it ended. The crate stands on the goals of
//! `goal_rows`, the cells of `dual_bound`, the values of points of `node_bounds`, the flows of `sig_graph`, the pairs
//! of `condorcet_count`, the orders of `irv_count`, the trees of `bound_tree` and the alterations of
//! `alteration_model`.
#![tactic(auto)]

mod cells;
mod chosen;
mod covers;
mod ends;
mod from_points;
mod laws;
mod levels;
mod pairs;
mod rounds;
mod starts;
mod walks;

pub use cells::cell_point;
pub use covers::cover_witness;
pub use ends::{End, Found};
pub use from_points::from_point;
pub use laws::{a_start_witness_has_the_start_number, no_shorter_alteration_meets_a_root_pair};
pub use pairs::{Witness, pair_witness};
pub use rounds::last_round;
pub use starts::start_witness;
