//! Ballots, rolls of ballots, candidates' names, contests, rules and outcomes.
//!
//! A roll is a list of valid ballots, whatever is done with it, and lends exactly its members. In `specs/` stand the definitions
//! that every rule and every layer above cites: a valid ballot, first preferences and scores, an alteration, and the ballots after
//! it. The crate stands on `mov_base`.
#![tactic(auto)]

mod contest;
mod firsts;
mod limits;
mod marks;
mod outcome;
mod ranking;
mod roll;
mod rows;
mod rule;
mod runs;
mod text;
mod valid;

pub use contest::Contest;
pub use firsts::first_counts;
pub use limits::{LONGEST_NAME, MOST_BALLOTS, MOST_CANDIDATES, MOST_SEATS};
use mov_base::List;
pub use outcome::Outcome;
pub use ranking::Ranking;
pub use roll::{PushFault, Roll};
pub use rows::Rows;
pub use rule::{Rule, RuleName};
pub use runs::{Run, Runs};
pub use text::{Names, Text};
pub use valid::valid_row;

/// A candidate, by its number from 0.
pub type Cand = u8;

/// A plain list of candidates.
pub type CandList = List<Cand>;

/// A score for each candidate.
pub type ScoreList = List<u64>;

/// A number of seats for each candidate.
pub type SeatList = List<u16>;
