// Prints a contest in the plain form.
ghost use Rattle.std.specs.Prelude.{◌≡◌, ◌<◌, ◌++◌, [], ◌∷◌, All, codes, decimal, length, IfOk, OnOk};
ghost use Rattle.csv.specs.Records.{fields_of, partial_of};
ghost use Rattle.ballot_csv.specs.BallotFile.{IsRead, named_poll_of};
ghost use Rattle.ballot_csv.specs.PlainForm.{plain_form, record_of, run_records, text_of_records};

use crate::plain::PlainText;
use ballot_form::{Cand, Contest, Names, Text};
use csv::ByteRecord;
use itoa::Buffer;
use mov_base::Memory;
use std::alloc::Global;

/// The plain form of a contest: the head, and one record for each longest run of equal ballots.
pub fn print_ballots(alloc: Global, contest: &Contest) -> Result<Vec<u8>, Memory>
    ensures text { IfOk result (λ bytes. bytes.items ≡ plain_form (named_poll_of contest.now)) }
    ensures back { IfOk result (λ bytes. IsRead bytes.items contest.now) }
{
    let count = usize::from(contest.roll.candidates()) + 1;
    let mut cells = ByteRecord::with_capacity(alloc, 0, count)?;
    let mut text = PlainText::new(alloc);
    head_record(&contest.names, &mut cells)?;
    text.write(&cells)?;
    write_runs(contest, &mut cells, &mut text)?;
    text.into_bytes()
}

/// Makes the head.
fn head_record(names: &Names, cells: &mut ByteRecord) -> Result<(), Memory>
    ensures { OnOk result (fields_of cells.new ≡ codes "ballots" ∷ names.now) }
{
    cells.clear();
    cells.push_field(b"ballots".as_slice())?;
    for name in names.as_slice() {
        cells.push_field(name.as_str().as_bytes())?;
    }
    Ok(())
}

/// Writes a record for each longest run of equal ballots.
fn write_runs(contest: &Contest, cells: &mut ByteRecord, text: &mut PlainText) -> Result<(), Memory>
    ensures { OnOk result (text.new
        ≡ text.old ++ text_of_records (run_records contest.now.names contest.now.roll.ballots)) }
{
    for run in contest.roll.runs() {
        run_record(contest.names.as_slice(), run.count, run.row, cells)?;
        text.write(cells)?;
    }
    Ok(())
}

/// Makes the record of so many ballots that are equal to this one.
fn run_record(
    names: &[Text],
    count: u32,
    ballot: &[Cand],
    cells: &mut ByteRecord,
) -> Result<(), Memory>
    requires { All (λ x. x < length names.now) ballot.now }
    ensures { OnOk result (fields_of cells.new ≡ record_of names.now (count, ballot.now)) }
{
    cells.clear();
    push_count(count, cells)?;
    for x in ballot {
        cells.push_field(names[*x as usize].as_str().as_bytes())?;
    }
    Ok(())
}

/// Adds a number as a cell.
fn push_count(count: u32, cells: &mut ByteRecord) -> Result<(), Memory>
    ensures { OnOk result ((partial_of cells.old ≡ [])
        → (fields_of cells.new ≡ fields_of cells.old ++ decimal count ∷ []) × (partial_of cells.new ≡ [])) }
{
    cells.push_field(Buffer::new().format(count).as_bytes())
}
