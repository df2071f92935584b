// Reads the head: the names of the candidates.
ghost use Rattle.std.specs.Prelude.{◌≡◌, ◌+◌, ◌++◌, codes, ◌<◌, ◌≤◌, ◌∷◌, [], length, drop, take, IfOk, IfErr, OnOk, MatchOption, None, Some, true, false};
ghost use Rattle.std.specs.List.{list_all};
ghost use Rattle.std.specs.Str.{bytes_eq};
ghost use Rattle.csv.specs.Records.{fields_of};
ghost use Rattle.ballot_form.specs.Names.{is_name, is_plain_byte};
ghost use Rattle.ballot_csv.specs.HeadRecord as spec;
ghost use Rattle.ballot_csv.specs.Faults.{OrMemory};
ghost use Rattle.ballot_csv.specs.declared.fault.BallotKind.TheVariants as BallotKind;

use crate::cells::cell_at;
use crate::fault::BallotKind;
use crate::names::NameIndex;
use ballot_form::{LONGEST_NAME, MOST_CANDIDATES, Names, Text};
use csv::ByteRecord;
use mov_base::Memory;
use std::alloc::Global;
use std::str::from_utf8;

/// Reads the head: the names of the candidates, in order and to be found by their bytes.
pub(crate) fn read_head<'a>(
    alloc: Global,
    head: &'a ByteRecord,
) -> Result<(Names, NameIndex<'a>), BallotKind>
    ensures good { OnOk result (spec.head_fault (fields_of head.now) ≡ None) }
    ensures names { IfOk result (λ p. p.0 ≡ spec.names_of (fields_of head.now)) }
    ensures index { IfOk result (λ p. p.1 ≡ spec.names_of (fields_of head.now)) }
    ensures some { IfOk result (λ p. 0 < length p.0) }
    ensures most { IfOk result (λ p. length p.0 ≤ MOST_CANDIDATES) }
    ensures err { IfErr result (λ kind. OrMemory kind (spec.head_fault (fields_of head.now) ≡ Some kind)) }
{
    let len = filled_len(head);
    if len == 0 || !is_head_word(cell_at(head, 0)) {
        return Err(BallotKind::BadHead);
    }
    if len == 1 {
        return Err(BallotKind::NoCandidates);
    }
    if len > usize::from(MOST_CANDIDATES) + 1 {
        return Err(BallotKind::TooManyCandidates);
    }
    read_names(alloc, head, len)
}

/// Whether a cell is the word that a head begins with.
fn is_head_word(cell: &[u8]) -> bool
    ensures { result ≡ bytes_eq cell.now (codes "ballots") }
{
    cell == b"ballots".as_slice()
}

/// How many cells of a record stand before the empty ones at its end.
#[tactic(auto, using(crate::proofs::HeadFacts::one_less, crate::proofs::HeadFacts::none_less))]
fn filled_len(cells: &ByteRecord) -> usize
    ensures filled { take result (fields_of cells.now) ≡ spec.without_empty_end (fields_of cells.now) }
    ensures within { result ≤ length (fields_of cells.now) }
{
    let mut len = cells.len();
    while len > 0 {
        if !cell_at(cells, len - 1).is_empty() {
            return len;
        }
        len -= 1;
    }
    0
}

/// Reads the cells from the second to the one before `len` as names.
#[tactic(auto, using(crate::proofs::HeadFacts::next_name, crate::proofs::CellFacts::rest_more))]
fn read_names<'a>(
    alloc: Global,
    head: &'a ByteRecord,
    len: usize,
) -> Result<(Names, NameIndex<'a>), BallotKind>
    requires some { 1 < len }
    requires few { len ≤ MOST_CANDIDATES + 1 }
    requires within { len ≤ length (fields_of head.now) }
    ensures good { OnOk result (spec.names_fault [] (drop 1 (take len (fields_of head.now))) ≡ None) }
    ensures names { IfOk result (λ p. p.0 ≡ drop 1 (take len (fields_of head.now))) }
    ensures index { IfOk result (λ p. p.1 ≡ drop 1 (take len (fields_of head.now))) }
    ensures count { IfOk result (λ p. length p.0 + 1 ≡ len) }
    ensures err { IfErr result
        (λ kind. OrMemory kind (spec.names_fault [] (drop 1 (take len (fields_of head.now))) ≡ Some kind)) }
{
    let mut names = Names::new(alloc);
    let mut index = NameIndex::new(alloc);
    for i in 1..len {
        add_name(alloc, cell_at(head, i), &mut names, &mut index)?;
    }
    Ok((names, index))
}

/// Adds a cell of the head as a name.
fn add_name<'a>(
    alloc: Global,
    cell: &'a [u8],
    names: &mut Names,
    index: &mut NameIndex<'a>,
) -> Result<(), BallotKind>
    requires same { index.old ≡ names.old }
    requires room { length names.old < MOST_CANDIDATES }
    ensures good { OnOk result (spec.name_fault names.old cell.now ≡ None) }
    ensures names { OnOk result (names.new ≡ names.old ++ cell.now ∷ []) }
    ensures index { OnOk result (index.new ≡ names.old ++ cell.now ∷ []) }
    ensures err { IfErr result (λ kind. OrMemory kind (spec.name_fault names.old cell.now ≡ Some kind)) }
{
    let Some(text) = name_text(cell) else {
        return Err(BallotKind::BadName);
    };
    match index.add(cell) {
        Ok(true) => {}
        Ok(false) => return Err(BallotKind::NameTwice),
        Err(_) => return Err(BallotKind::Memory),
    }
    match push_name(alloc, text, names) {
        Ok(()) => Ok(()),
        Err(_) => Err(BallotKind::Memory),
    }
}

/// Adds a text as a name.
fn push_name(alloc: Global, text: &str, names: &mut Names) -> Result<(), Memory>
    ensures { OnOk result (names.new ≡ names.old ++ text.now ∷ []) }
{
    names.push(Text::of(alloc, text)?)
}

/// The text of a cell that may be a name.
#[tactic(auto, using(crate::proofs::HeadFacts::text_of_utf8, crate::proofs::HeadFacts::no_text_of_utf8))]
fn name_text(cell: &[u8]) -> Option<&str>
    ensures { MatchOption result (is_name cell.now ≡ false)
        (λ text. (text.now ≡ cell.now) × (is_name cell.now ≡ true)) }
{
    if cell.is_empty() || cell.len() > LONGEST_NAME || !is_plain(cell) {
        return None;
    }
    from_utf8(cell).ok()
}

/// Whether a cell has no control byte.
fn is_plain(cell: &[u8]) -> bool
    ensures { result ≡ list_all is_plain_byte cell.now }
{
    cell.iter().all(|byte| !(*byte < 32) && *byte != 127)
}
