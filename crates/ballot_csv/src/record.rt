// Reads a record below the head.
ghost use Rattle.std.specs.Prelude.{◌≡◌, ◌+◌, ◌++◌, ◌<◌, ◌≤◌, ◌∷◌, [], All, length, drop, fold, None, Some, OnOk, IfOk, IfErr, false, true};
ghost use Rattle.std.specs.List.{list_all, list_any};
ghost use Rattle.csv.specs.Records.{fields_of};
ghost use Rattle.ballot_csv.specs.OneRecord.{ballot_of, ballots_of, candidate_of, is_empty, is_unknown, record_fault, with_candidate};
ghost use Rattle.ballot_csv.specs.Faults.{OrMemory};
ghost use Rattle.ballot_csv.specs.declared.fault.BallotKind.TheVariants as BallotKind;

use crate::cells::cell_at;
use crate::count::read_count;
use crate::fault::BallotKind;
use crate::names::NameIndex;
use ballot_form::{PushFault, Ranking, Roll};
use csv::ByteRecord;

/// Adds the ballots of a record below the head. `ballot` is overwritten: its memory serves for each record's ballot.
pub(crate) fn add_record(
    names: &NameIndex,
    cells: &ByteRecord,
    ballot: &mut Ranking,
    roll: &mut Roll,
) -> Result<(), BallotKind>
    requires { length names.now ≡ roll.old.c }
    ensures fault { OnOk result (record_fault names.now (length roll.old.ballots) (fields_of cells.now) ≡ None) }
    ensures ballots { OnOk result (roll.new
        ≡ record roll.old { ballots = roll.old.ballots ++ ballots_of names.now (fields_of cells.now) }) }
    ensures err { IfErr result (λ kind. OrMemory kind
        (record_fault names.now (length roll.old.ballots) (fields_of cells.now) ≡ Some kind)) }
{
    if is_passed(cells) {
        return Ok(());
    }
    let Some(count) = read_count(cell_at(cells, 0)) else {
        return Err(BallotKind::BadCount);
    };
    read_ballot(names, cells, ballot)?;
    match roll.push_times(ballot.as_slice(), count) {
        Ok(()) => Ok(()),
        Err(PushFault::TooMany) => Err(BallotKind::TooManyBallots),
        Err(PushFault::Memory) => Err(BallotKind::Memory),
    }
}

/// Whether all cells of a record are empty.
#[tactic(auto, using(crate::proofs::CellFacts::all_until, crate::proofs::CellFacts::all_stops_at))]
fn is_passed(cells: &ByteRecord) -> bool
    ensures { result ≡ list_all is_empty (fields_of cells.now) }
{
    for i in 0..cells.len() {
        if !cell_at(cells, i).is_empty() {
            return false;
        }
    }
    true
}

/// Makes the ballot that the cells after the count name.
#[tactic(auto, using(crate::proofs::CellFacts::rest_more))]
fn read_ballot(
    names: &NameIndex,
    cells: &ByteRecord,
    ballot: &mut Ranking,
) -> Result<(), BallotKind>
    ensures ballot { OnOk result (ballot.new ≡ ballot_of names.now (drop 1 (fields_of cells.now))) }
    ensures below { OnOk result (All (λ x. x < length names.now) ballot.new) }
    ensures known { OnOk result (list_any (is_unknown names.now) (drop 1 (fields_of cells.now)) ≡ false) }
    ensures err { IfErr result (λ kind. OrMemory kind
        ((kind ≡ BallotKind.UnknownName) × (list_any (is_unknown names.now) (drop 1 (fields_of cells.now)) ≡ true))) }
{
    ballot.clear();
    for i in 1..cells.len() {
        add_cell(names, cell_at(cells, i), ballot)?;
    }
    Ok(())
}

/// Adds the candidate that a cell names, if it isn't on the ballot yet.
fn add_cell(names: &NameIndex, cell: &[u8], ballot: &mut Ranking) -> Result<(), BallotKind>
    requires { All (λ x. x < length names.now) ballot.old }
    ensures ballot { OnOk result (ballot.new ≡ with_candidate ballot.old (candidate_of names.now cell.now)) }
    ensures below { OnOk result (All (λ x. x < length names.now) ballot.new) }
    ensures known { OnOk result (is_unknown names.now cell.now ≡ false) }
    ensures err { IfErr result
        (λ kind. OrMemory kind ((kind ≡ BallotKind.UnknownName) × (is_unknown names.now cell.now ≡ true))) }
{
    if cell.is_empty() {
        return Ok(());
    }
    let Some(candidate) = names.candidate_named(cell) else {
        return Err(BallotKind::UnknownName);
    };
    if !ballot.as_slice().contains(&candidate) {
        ballot.push(candidate)?;
    }
    Ok(())
}
