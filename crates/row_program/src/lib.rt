//! Programs of rows over whole variables, their points, and the definitions of the exact linear method.
//!
//! A program is a list of variables with costs and a list of rows that must not be negative; a point gives its variables
//! values over one denominator. The crate promises whether a point meets all rows and what it costs. In `specs/` it has
//! what a point is, what the least cost and the least point are, and, apart from these, the forms, the pivots and the
//! run of the method that finds them. It has the features of replacements and the limits on them, too. It stands on the
//! base crate and on the exact tools.
#![tactic(auto)]

mod bounds;
mod limits;
mod points;
mod program;

pub use bounds::is_program;
pub use limits::{MOST_KIDS, MOST_LIMITS, MOST_ROWS, MOST_VARIABLES, TERM_LIMIT};
pub use points::{holds_at, point_cost};
pub use program::{CostList, NumberList, Point, Program, Row, RowList, Term, TermList};

/// What is counted of a list of replacements.
#[derive(Clone, Copy, Debug, PartialEq, Eq)]
pub enum Feature {
    /// Those whose old ballot has this key.
    From(u64),
    /// Those whose new ballot's signature has the arc from the first place to the second.
    Arc(u8, u8),
}

/// A limit on a feature: at most the value, or at least the value.
#[derive(Clone, Copy, Debug, PartialEq, Eq)]
pub struct Limit {
    /// What is limited.
    pub feature: Feature,
    /// Whether the feature is at most the value, and not at least.
    pub at_most: bool,
    /// How many replacements.
    pub value: u32,
}
