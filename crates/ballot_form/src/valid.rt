// The test of a ballot.
ghost use Rattle.std.specs.Prelude.{◌↔◌, IsTrue};
ghost use Rattle.ballot_form.specs.Ballots.{IsValidBallot};

use crate::Cand;

/// Whether the row is a valid ballot of `c` candidates.
pub fn valid_row(row: &[Cand], c: u8) -> bool
    ensures { IsTrue result ↔ IsValidBallot c row.now }
{
    for (i, x) in row.iter().enumerate() {
        if *x >= c || row[..i].contains(x) {
            return false;
        }
    }
    true
}
