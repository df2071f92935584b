//! Outcomes, turning, margins and goals.
//!
//! In `specs/` stand the definitions of an admitted outcome, of the reported one, of turning the outcome, and of the
//! margin, for every rule alike, and goals with their rows: what replacements are to reach so that the outcome turns.
//! `reported` answers the reported outcome. `race` gives the goals below the root, and promises for every rule that the
//! outcome turns exactly where all rows of some complete goal hold; `race_with` takes other goals below the root.
//! `cover` gives the goals that a goal is split into, and each complete goal is reached from the root in just one way;
//! `ground` keeps what is known of a goal before any replacement, and `kid_grounds` what is known of all goals that it
//! is split into, in one pass over the kinds of ballots. `program_of` gives the program of a node: its rows and limits
//! over how many ballots of each class are replaced, and by what. The crate stands on `ballot_form`, on
//! `signature_class`, on the arcs of `sig_graph`, on the programs of `row_program` and on the crates that count.
#![tactic(auto)]

mod complete;
mod cover_grounds;
mod goals;
mod grounds;
mod kids;
mod laws;
mod outcomes;
pub mod parts;
mod points;
mod programs;
mod races;
mod rows;
mod sums;
mod weighings;

pub use complete::is_complete;
pub use cover_grounds::kid_grounds;
pub use goals::{Goal, GoalList};
pub use grounds::{ground, key};
pub use kids::{cover, kid_count};
pub use laws::{
    a_complete_goal_is_reached_in_one_way, a_legal_order_keeps_the_rows_of_its_suffixes,
    a_margin_is_one_number, a_reached_goal_is_the_root_or_below_a_root_goal,
    a_reported_outcome_is_one, goals_on_the_way_hold, other_seats_are_admitted_where_a_party_gains,
    plurality_turns_where_a_challenger_is_level, replacements_bring_at_most_the_largest_gains,
    the_outcome_turns_where_a_goal_holds, the_root_goals_are_roots,
};
pub use outcomes::reported;
pub use programs::{MOST_CLASSES, program_of};
pub use races::{race, race_with};
pub use rows::{MOST_ROWS, row_count, rows_hold};
