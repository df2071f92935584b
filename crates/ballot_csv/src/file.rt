// Reads a ballot file: its head, and then record by record onto the roll.
ghost use Rattle.std.specs.Prelude.{◌≡◌, ◌<◌, ◌^◌, [], ◌∷◌, ◌++◌, length, None, Some, IfErr, IfOk, OnOk, MatchBool};
ghost use Rattle.std.specs.List.{flat_map};
ghost use Rattle.csv.specs.Records.{fields_of};
ghost use Rattle.ballot_csv.specs.BallotFile as file;
ghost use Rattle.ballot_csv.specs.BallotFile.{ReadsContest, read_of};
ghost use Rattle.ballot_csv.specs.Faults.{OrMemory};
ghost use Rattle.ballot_csv.specs.OneRecord.{ballots_of};
ghost use Rattle.ballot_csv.specs.declared.fault.BallotKind.TheVariants as BallotKind;

use crate::fault::{BallotFault, BallotKind};
use crate::head::read_head;
use crate::names::NameIndex;
use crate::record::add_record;
use crate::records::Records;
use ballot_form::{Contest, Ranking, Roll};
use csv::ByteRecord;
use std::alloc::Global;

/// The contest of a ballot file, or the first fault with the number of its record.
#[tactic(auto, unfolding(crate::specs::BallotFile::read_of))]
pub fn read_ballots(alloc: Global, bytes: &[u8]) -> Result<Contest, BallotFault>
    ensures { ReadsContest result (read_of bytes.now) }
{
    let mut records = Records::of(alloc, bytes);
    let mut head = ByteRecord::new(alloc);
    match records.read(&mut head) {
        Ok(true) => read_after(alloc, &head, &mut records),
        Ok(false) => Err(BallotFault {
            kind: BallotKind::Empty,
            at: 1,
        }),
        Err(_) => Err(no_memory()),
    }
}

/// Reads the records after the head.
fn read_after(
    alloc: Global,
    head: &ByteRecord,
    records: &mut Records,
) -> Result<Contest, BallotFault>
    requires few { length records.old < 2 ^ 63 }
    ensures { ReadsContest result (file.read_records (fields_of head.now ∷ records.old)) }
{
    let (names, index) = match read_head(alloc, head) {
        Ok(names) => names,
        Err(kind) => return Err(BallotFault { kind, at: 1 }),
    };
    let mut roll = Roll::new(alloc, names.len() as u8);
    add_records(alloc, &index, records, &mut roll)?;
    Ok(Contest { names, roll })
}

/// Reads the records below the head onto the roll.
fn add_records(
    alloc: Global,
    names: &NameIndex,
    records: &mut Records,
    roll: &mut Roll,
) -> Result<(), BallotFault>
    requires names { length names.now ≡ roll.old.c }
    requires few { length records.old < 2 ^ 63 }
    ensures good { OnOk result (file.records_fault names.now 2 (length roll.old.ballots) records.old ≡ None) }
    ensures ballots { OnOk result (roll.new.ballots ≡ roll.old.ballots ++ flat_map (ballots_of names.now) records.old) }
    ensures names { OnOk result (roll.new.c ≡ roll.old.c) }
    ensures err { IfErr result (λ fault. OrMemory fault.kind
        (file.records_fault names.now 2 (length roll.old.ballots) records.old ≡ Some fault)) }
{
    let mut cells = ByteRecord::new(alloc);
    let mut ballot = Ranking::new(alloc);
    let mut at = 2u64;
    while has_next(records, &mut cells)? {
        if let Err(kind) = add_record(names, &cells, &mut ballot, roll) {
            return Err(BallotFault { kind, at });
        }
        at += 1;
    }
    Ok(())
}

/// Reads the next record, and tells whether there was one.
fn has_next(records: &mut Records, cells: &mut ByteRecord) -> Result<bool, BallotFault>
    ensures found { IfOk result
        (λ found. MatchBool found (records.old ≡ fields_of cells.new ∷ records.new) (records.old ≡ [])) }
    ensures err { IfErr result (λ fault. fault.kind ≡ BallotKind.Memory) }
{
    match records.read(cells) {
        Ok(found) => Ok(found),
        Err(_) => Err(no_memory()),
    }
}

/// Want of memory.
fn no_memory() -> BallotFault
    ensures { result.kind ≡ BallotKind.Memory }
{
    BallotFault {
        kind: BallotKind::Memory,
        at: 0,
    }
}
