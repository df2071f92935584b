// The count of a record.
ghost use Rattle.std.specs.Prelude.{◌≡◌, min, option_map};
ghost use Rattle.text_lines.specs.Numbers.{number_of};

use ballot_form::MOST_BALLOTS;
use text_lines::{Numeral, read_numeral};

/// One more than the most ballots of a roll. Each greater count is taken for it.
const MANY: u32 = MOST_BALLOTS + 1;

/// The number that a cell writes, or `MANY` where it is greater.
pub(crate) fn read_count(cell: &[u8]) -> Option<u32>
    ensures { result ≡ option_map (min MANY) (number_of cell.now) }
{
    match read_numeral(u64::from(MOST_BALLOTS), cell) {
        Numeral::NotDigits | Numeral::LeadingZero => None,
        Numeral::Above => Some(MANY),
        Numeral::Number(count) => Some(count as u32),
    }
}
