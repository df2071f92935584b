//! The exact linear method: the least cost of a program's points, the least point of that cost, and multipliers that show
//! it.
//!
//! `solve` is the lexicographic dual simplex method over forms with whole entries. The crate promises that it ends; that
//! its value is the least cost over all points, its point the lexicographically least of that cost in its least
//! denominator, and that it says that there is no point exactly where there is none; what its multipliers show of all
//! points that meet the rows that aren't kept; and that it refuses a program exactly where a number on the way, or one of
//! the point, has 63 bits or more. Points and costs are those of `row_program`, which know no forms. It stands on the
//! forms of `pivot_form`, on the lemmas of `dual_theory` and on the multipliers of `bound_tree`.
#![tactic(auto)]

mod buffers;
mod choice;
mod method;
mod multipliers;
mod places;
mod point;
mod solved;

pub use buffers::Buffers;
pub use method::{solve, solve_in};
pub use solved::{SolveFault, Solved};
