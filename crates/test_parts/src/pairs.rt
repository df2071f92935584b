// The pairs of small contests and of one from a textbook, and Condorcet's outcome.
use crate::rolls::roll_of;
use condorcet_count::{Matrix, condorcet_outcome, pairs};
use std::alloc::Global;
use std::process::Abort;
use std::test::Fail;

/// How many ballots prefer each candidate to each other one, a candidate's counts after its comma.
fn matrix_text(alloc: Global, matrix: &Matrix) -> Result<String, Fail> {
    let mut text = String::new(alloc);
    for x in 0..matrix.candidates() {
        for y in 0..matrix.candidates() {
            let count = matrix.pref(x, y);
            text.push_str(format!(in alloc; " {count}")?.as_str())?;
        }
        text.push_str(",")?;
    }
    Ok(text)
}

/// A line of the table.
fn has_pairs(rt: &impl Abort, alloc: Global, line: &str) -> Result<(), Fail> {
    let mut fields = line.splitn(3, ';');
    let roll = roll_of(alloc, fields.next().ok_or("no ballots")?)?;
    let matrix = pairs(alloc, &roll)?;
    let text = matrix_text(alloc, &matrix)?;
    assert_eq!(rt; text.as_str(), fields.next().ok_or("no pairs")?);
    let outcome = condorcet_outcome(&matrix);
    let text = format!(in alloc; "{outcome:?}")?;
    assert_eq!(rt; text.as_str(), fields.next().ok_or("no outcome")?.trim());
    Ok(())
}

/// A cycle of three; the capital of Tennessee; no ballots; blank and short ballots; a tie, which goes to the lower
/// number.
const CONTESTS: &str = "\
3: 1 ABC, 1 BCA, 1 CAB; 0 2 1, 1 0 2, 2 1 0,; None
4: 42 ABCD, 26 BCDA, 15 CDBA, 17 DCBA; 0 42 42 42, 58 0 68 68, 58 32 0 83, 58 32 17 0,; Some(1)
3: ; 0 0 0, 0 0 0, 0 0 0,; Some(0)
3: 4, 2 B, 2 CA; 0 2 0, 2 0 2, 2 2 0,; None
2: 3 BA, 3 AB; 0 3, 3 0,; Some(0)
";

#[test]
fn pairs_and_outcomes(rt: HostRuntime) -> Result<(), Fail> {
    for line in CONTESTS.lines() {
        has_pairs(&rt, rt.alloc(), line)?;
    }
    Ok(())
}
