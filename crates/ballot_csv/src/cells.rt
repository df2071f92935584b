// A cell of a record.
ghost use Rattle.std.specs.Prelude.{◌≡◌, ◌<◌, length, Some, slice_get};
ghost use Rattle.csv.specs.Records.{fields_of};

use csv::ByteRecord;

/// The cell of a record with this number, from 0.
#[tactic(auto, using(crate::proofs::CellFacts::got, crate::proofs::CellFacts::same_place))]
pub(crate) fn cell_at(cells: &ByteRecord, i: usize) -> &[u8]
    requires { i < length (fields_of cells.now) }
    ensures { slice_get (fields_of cells.now) i ≡ Some result.now }
{
    cells.get(i).unwrap()
}
