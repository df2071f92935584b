//! Lines of words and numbers: the fields of a line, what stands between single spaces, and the numbers among them.
//!
//! It promises that the fields that a walk gives are those of the line, in order, each as the slice of the line at its
//! place, and, joined by single spaces, the line itself; that a number is read exactly as it is written, without a leading
//! zero and within its limits; and that of a line's faults a bad line comes before a bad number. The calls of `written` add
//! lines to a text. It stands on the base crate's list.
#![tactic(auto)]

ghost use Rattle.std.specs.Prelude.{◌≡◌};
ghost use Rattle.text_lines.specs.Words.{fields_of, ahead, line_of};

mod fault;
mod line_numbers;
mod lists;
mod numbers;
pub mod parts;
pub mod written;

pub use fault::{LineFault, both};
pub use line_numbers::{
    any_numbers, is_word, next_is, nothing_more, number, one_number, so_many_numbers, two_numbers,
};
pub use lists::NumberList;
pub use numbers::{Numeral, read_numeral};
use parts::Fields;

/// The fields of a line: what stands between single spaces. A line without a space, also an empty one, is one field. It
/// takes no memory.
pub fn fields<'a>(line: &'a [u8]) -> Fields<'a>
    ensures line { result.line ≡ line.now }
    ensures start { result.start ≡ 0 }
    ensures ahead { ahead result ≡ fields_of line.now }
    ensures joined { line_of (ahead result) ≡ line.now }
{
    Fields::of_line(line)
}
