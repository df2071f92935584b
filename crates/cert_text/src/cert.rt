// What a certificate says.
use alteration_model::PutList;
use ballot_form::{Cand, CandList, Outcome, Rule};
use bound_tree::BoundTree;

/// Why a search stopped before it knew the margin.
#[derive(Clone, Copy, Debug, PartialEq, Eq)]
pub enum Stop {
    /// The next step would pass this number of nodes.
    Budget(u32),
    /// The next step would pass the greatest depth.
    Depth,
}

/// What a certificate claims, in ballots.
#[derive(Clone, Copy, Debug, PartialEq, Eq)]
pub enum Claim {
    /// So many replacements turn the outcome, and fewer don't.
    Margin(u32),
    /// Nothing turns the outcome.
    Fixed,
    /// Fewer than `low` replacements don't turn the outcome, and `up` do.
    Bounds {
        /// The lower bound.
        low: u32,
        /// The upper bound.
        up: u32,
        /// Why the margin itself isn't told.
        stop: Stop,
    },
}

/// The goal that holds after the replacements, by the numbers of candidates.
#[derive(Debug, Drop)]
pub enum GoalText {
    /// These candidates go out in this order, and the last wins.
    Order(CandList),
    /// The first is level with the second, or before it.
    Pair(Cand, Cand),
    /// The candidate is level with each other one, or before it.
    Cover(Cand),
}

/// A certificate.
#[derive(Debug, Drop)]
pub struct Cert {
    /// The rule.
    pub rule: Rule,
    /// How many candidates the contest has.
    pub c: u8,
    /// How many ballots it has.
    pub ballots: u32,
    /// The reported outcome.
    pub reported: Outcome,
    /// What is claimed.
    pub claim: Claim,
    /// The goal that holds after the replacements; none where nothing turns the outcome.
    pub goal: Option<GoalText>,
    /// The replacements.
    pub puts: PutList,
    /// The tree that shows that fewer don't do.
    pub tree: BoundTree,
}
