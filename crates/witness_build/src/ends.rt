// What a search answers.
use crate::pairs::Witness;
use bound_tree::BoundTree;

/// Why a search ended.
#[derive(Debug, Drop)]
pub enum End {
    /// No alteration turns the outcome: the tree proves one more than there are ballots.
    Nothing,
    /// The tree proves as much as the start witness is long.
    Met,
    /// The first leaf with the least bound has a complete goal and a whole point, from which this witness is made.
    AtPoint(Witness),
    /// The tree would outgrow the budget.
    Budget,
    /// The tree would be deeper than a bound tree may be.
    Depth,
}

/// What a search finds.
#[derive(Debug, Drop)]
pub struct Found {
    /// The tree.
    pub tree: BoundTree,
    /// How many replacements it proves: no alteration of fewer meets a goal of the race.
    pub low: u32,
    /// Why it ended.
    pub end: End,
}
