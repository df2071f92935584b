// The scores of small contests by both rules, and who has the greatest.
use crate::rolls::{number, roll_of};
use score_count::{borda, plurality, score_winner};
use std::alloc::Global;
use std::process::Abort;
use std::test::Fail;

/// The scores as they are printed, and who has the greatest.
fn winner_of(alloc: Global, scores: &[u64]) -> Result<(String, u32), Fail> {
    if scores.is_empty() || scores.len() > 255 {
        return Err("no scores".into());
    }
    Ok((
        format!(in alloc; "{scores:?}")?,
        u32::from(score_winner(scores)),
    ))
}

/// A line of the table: the scores and the winner by one rule.
fn has_scores(
    rt: &impl Abort,
    alloc: Global,
    scores: &[u64],
    text: &str,
    winner: &str,
) -> Result<(), Fail> {
    let (found, best) = winner_of(alloc, scores)?;
    assert_eq!(rt; found.as_str(), text.trim());
    assert_eq!(rt; best, number(winner)?);
    Ok(())
}

/// A line of the table.
fn has_both(rt: &impl Abort, alloc: Global, line: &str) -> Result<(), Fail> {
    let mut fields = line.splitn(5, ';');
    let roll = roll_of(alloc, fields.next().ok_or("no ballots")?)?;
    for scores in [plurality(alloc, &roll)?, borda(alloc, &roll)?] {
        let text = fields.next().ok_or("no scores")?;
        let winner = fields.next().ok_or("no winner")?;
        has_scores(rt, alloc, scores.as_slice(), text, winner)?;
    }
    Ok(())
}

/// Ballots; scores under plurality; the winner; scores under Borda; the winner.
const CONTESTS: &str = "\
3: 3 ABC, 2 BCA; [3, 2, 0]; 0; [6, 7, 2]; 1
4: 2, 1 D; [0, 0, 0, 1]; 3; [0, 0, 0, 3]; 3
1: ; [0]; 0; [0]; 0
2: 5 A, 5 B; [5, 5]; 0; [5, 5]; 0
3: 1 A, 7 B, 7 C; [1, 7, 7]; 1; [2, 14, 14]; 1
3: 9 C; [0, 0, 9]; 2; [0, 0, 18]; 2
";

#[test]
fn scores_and_winners(rt: HostRuntime) -> Result<(), Fail> {
    for line in CONTESTS.lines() {
        has_both(&rt, rt.alloc(), line)?;
    }
    Ok(())
}
