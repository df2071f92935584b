// Each fault of claimed replacements at its place, and a roll after an alteration.
//
// Replacements are written as a roll's ballots are: `1 BA, 3` puts a ballot for the second candidate and then the
// first in the place of ballot 1, and a blank one in the place of ballot 3.
use crate::rolls::{cands, number, roll_of};
use alteration_model::{Put, PutList, apply, check_alteration};
use ballot_form::CandList;
use std::alloc::Global;
use std::process::Abort;
use std::test::Fail;

/// The replacements that a text writes.
fn puts_of(alloc: Global, text: &str) -> Result<PutList, Fail> {
    let mut puts = PutList::new(alloc);
    for part in text.split(',') {
        puts.push(put_of(alloc, part.trim())?)?;
    }
    Ok(puts)
}

/// One of them.
fn put_of(alloc: Global, text: &str) -> Result<Put, Fail> {
    let (place, letters) = match text.split_once(' ') {
        Some(parts) => parts,
        None => (text, ""),
    };
    Ok(Put {
        number: number(place)?,
        ballot: CandList::from_vec(cands(alloc, letters)?),
    })
}

/// A line of the table: of two ballots for the first of two candidates and a blank one, these replacements have this
/// fault.
fn has_fault(rt: &impl Abort, alloc: Global, line: &str) -> Result<(), Fail> {
    let (puts, want) = line.split_once(';').ok_or("no fault")?;
    let roll = roll_of(alloc, "2: 2 A, 1")?;
    match check_alteration(alloc, &roll, puts_of(alloc, puts)?.as_slice()) {
        Ok(_) => Err("taken".into()),
        Err(fault) => {
            let text = format!(in alloc; "{fault:?}")?;
            assert_eq!(rt; text.as_str(), want.trim(), "at {puts}");
            Ok(())
        }
    }
}

/// Replacements, and the first fault with its place.
const FAULTS: &str = "\
0 A; NumberRange(0)
4 A; NumberRange(0)
2, 2; NotAscending(1)
3 B, 1 F; NotAscending(1)
1 AA; BadBallot(0)
1 B, 2 C; BadBallot(1)
1 B, 9 C, 0; NumberRange(1)
1 C, 0; BadBallot(0)
";

#[test]
fn the_first_bad_put_decides(rt: HostRuntime) -> Result<(), Fail> {
    for line in FAULTS.lines() {
        has_fault(&rt, rt.alloc(), line)?;
    }
    Ok(())
}

#[test]
fn named_ballots_are_replaced(rt: HostRuntime) -> Result<(), Fail> {
    let alloc = rt.alloc();
    let roll = roll_of(alloc, "2: 2 A, 1")?;
    let puts = puts_of(alloc, "1 BA, 3 A")?.copy()?;
    let changes = check_alteration(alloc, &roll, puts.as_slice())?;
    assert_eq!(rt; changes.len(), 2);
    assert_eq!(rt; changes.number(1), 3);
    assert_eq!(rt; changes.ballot(0), [1, 0].as_slice());
    let altered = apply(alloc, &roll, &changes)?;
    assert_eq!(rt; altered.len(), 3);
    assert_eq!(rt; altered.row(0), [1, 0].as_slice());
    assert_eq!(rt; altered.row(1), [0].as_slice());
    assert_eq!(rt; altered.row(2), [0].as_slice());
    Ok(())
}
