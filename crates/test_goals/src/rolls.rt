// Rolls as the tests write them down.
//
// `3: 5 A, 4 BC, 2` is a roll of three candidates: five ballots that rank the first alone, four that rank the second
// and then the third, and two blank ones.
use ballot_form::{Cand, MOST_CANDIDATES, Roll, valid_row};
use std::alloc::Global;
use std::test::Fail;

/// The number that a text writes.
pub(crate) fn number(text: &str) -> Result<u32, Fail> {
    Ok(text.trim().parse::<u32>().ok().ok_or("no number")?)
}

/// The candidates that letters stand for, `A` for the first.
pub(crate) fn cands(alloc: Global, letters: &str) -> Result<Vec<Cand>, Fail> {
    let mut row = Vec::new(alloc);
    for letter in letters.trim().bytes() {
        row.push(letter.wrapping_sub(b'A'))?;
    }
    Ok(row)
}

/// The roll that a text writes.
pub(crate) fn roll_of(alloc: Global, text: &str) -> Result<Roll, Fail> {
    let (c, ballots) = text.split_once(':').ok_or("no candidates")?;
    let c = c.trim().parse::<u8>().ok().ok_or("no number")?;
    if c < 1 || c > MOST_CANDIDATES {
        return Err("candidates past the limit".into());
    }
    let mut roll = Roll::new(alloc, c);
    if !ballots.trim().is_empty() {
        for part in ballots.split(',') {
            add_ballots(alloc, &mut roll, part.trim())?;
        }
    }
    Ok(roll)
}

/// Adds equal ballots.
fn add_ballots(alloc: Global, roll: &mut Roll, text: &str) -> Result<(), Fail> {
    let (count, letters) = match text.split_once(' ') {
        Some(parts) => parts,
        None => (text, ""),
    };
    let row = cands(alloc, letters)?;
    let count = number(count)?;
    if !valid_row(row.as_slice(), roll.candidates()) {
        return Err("not a ballot".into());
    }
    if roll.push_times(row.as_slice(), count).is_err() {
        return Err("no room for ballots".into());
    }
    Ok(())
}
