//! Reduced forms of a program's equations, and their pivots.
//!
//! A form is a list of equations with whole entries of less than 64 bits, each solved for one basic variable and divided
//! by its greatest common divisor. The crate promises that `start` makes a program's first form and that `pivot` makes
//! the next form, which has the same solutions, or tells the first entry that is too large for it. It stands on the exact
//! tools and on the definitions of `row_program`.
#![tactic(auto)]

mod clearing;
mod divisor;
mod equation;
mod exchanges;
mod form;
mod narrow;
mod pairs;
mod places;
mod room;
mod rows;
mod short;
mod small_rows;
mod start;
mod whole_rows;

pub use equation::Equation;
pub use form::{Form, Wide};
pub use room::Room;
