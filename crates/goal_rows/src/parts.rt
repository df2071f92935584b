// The parts of a contest under a rule, named by their module since functions have the same letters.
use crate::goals::{Goal, GoalList};
use ballot_form::{Outcome, Roll, Rule};
use mov_base::List;
use signature_class::Classes;
use signature_class::parts::Kinds;

/// A list of whole numbers.
pub type SumList = List<i64>;

/// What a contest is under a rule, before any replacement.
#[derive(Drop)]
pub struct Race<'a> {
    /// The rule.
    pub rule: Rule,
    /// The ballots.
    pub roll: &'a Roll,
    /// The distinct ballots as far as the rule looks at them, each with how many there are of it: under plurality and
    /// D'Hondt their first candidates alone, and else the whole ballots.
    pub kinds: Kinds<'a>,
    /// The reported outcome.
    pub reported: Outcome,
    /// The goals into which the root is split.
    pub roots: GoalList,
}

/// What a goal is in a race, before any replacement.
#[derive(Drop)]
pub struct Ground {
    /// The goal.
    pub goal: Goal,
    /// The ballots by their key under the goal: for a suffix the set of the places that its signature keeps; for a pair
    /// the weight that its row gives the ballot, and 1,024 more; for a cover the set of the candidates up to its own.
    pub classes: Classes,
    /// The value of each of the goal's rows.
    pub sums: SumList,
    /// How many ballots there are.
    pub ballots: u32,
    /// The weight of the ballot that ranks a pair's gainer alone; 1 for a cover; 0 for the root and for a suffix.
    pub lone: i64,
}

/// A list of grounds.
pub type GroundList = List<Ground>;
