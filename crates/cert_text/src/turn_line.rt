// The lines of the goal and of the replacements.
ghost use Rattle.std.specs.Prelude.{◌≡◌, ◌∷◌, ℕ, codes, false};
ghost use Rattle.std.specs.Str.{bytes_eq};
ghost use Rattle.text_lines.specs.Faults.{UnlessMemory};
ghost use Rattle.text_lines.specs.Words.{fields_of, ahead};
ghost use Rattle.cert_text.specs.HeadLines.{goal_of, goal_line, put_fields, put_line};

use crate::cert::GoalText;
use crate::limits::GREATEST_CANDIDATE;
use alteration_model::Put;
use ballot_form::{CandList, MOST_BALLOTS};
use std::alloc::Global;
use text_lines::parts::Fields;
use text_lines::{
    LineFault, any_numbers, both, fields, is_word, next_is, number, one_number, so_many_numbers,
    two_numbers,
};

/// A goal of `c` candidates.
pub(crate) fn read_goal(alloc: Global, c: u8, line: &[u8]) -> Result<GoalText, LineFault>
    ensures { UnlessMemory result (result ≡ goal_line c (fields_of line.now)) }
{
    let mut rest = fields(line);
    if !next_is(&mut rest, b"goal") {
        return Err(LineFault::BadLine);
    }
    match rest.next() {
        None => Err(LineFault::BadLine),
        Some(kind) => {
            if is_word(kind.text, b"order") {
                read_order(alloc, c, &mut rest)
            } else {
                read_small_goal(kind.text, &mut rest)
            }
        }
    }
}

/// The order of all candidates.
fn read_order(alloc: Global, c: u8, rest: &mut Fields<'_>) -> Result<GoalText, LineFault>
    ensures { UnlessMemory result (result ≡ goal_of c (codes "order") (ahead rest.old)) }
{
    let most = u64::from(GREATEST_CANDIDATE);
    let order = so_many_numbers(CandList::new(alloc), usize::from(c), 0, most, rest)?;
    Ok(GoalText::Order(order))
}

/// A pair or a cover.
fn read_small_goal(kind: &[u8], rest: &mut Fields<'_>) -> Result<GoalText, LineFault>
    ensures { (c : ℕ) → bytes_eq kind.now (codes "order") ≡ false → result ≡ goal_of c kind.now (ahead rest.old) }
{
    let most = u64::from(GREATEST_CANDIDATE);
    if is_word(kind, b"pair") {
        let (gainer, loser) = two_numbers(0, most, 0, most, rest)?;
        Ok(GoalText::Pair(gainer as u8, loser as u8))
    } else if is_word(kind, b"cover") {
        let x = one_number(0, most, rest)?;
        Ok(GoalText::Cover(x as u8))
    } else {
        Err(LineFault::BadLine)
    }
}

/// A replacement.
pub(crate) fn read_put(alloc: Global, line: &[u8]) -> Result<Put, LineFault>
    ensures { UnlessMemory result (result ≡ put_line (fields_of line.now)) }
{
    let mut rest = fields(line);
    if !next_is(&mut rest, b"put") {
        return Err(LineFault::BadLine);
    }
    match rest.next() {
        None => Err(LineFault::BadLine),
        Some(field) => read_change(alloc, field.text, &mut rest),
    }
}

/// The number of a ballot, and the candidates of the ballot that stands in its place.
fn read_change(alloc: Global, number_text: &[u8], rest: &mut Fields<'_>) -> Result<Put, LineFault>
    ensures { UnlessMemory result (result ≡ put_fields (number_text.now ∷ ahead rest.old)) }
{
    let number = number(0, u64::from(MOST_BALLOTS), number_text);
    let most = u64::from(GREATEST_CANDIDATE);
    let (number, ballot) = both(number, any_numbers(CandList::new(alloc), 0, most, rest))?;
    Ok(Put {
        number: number as u32,
        ballot,
    })
}
