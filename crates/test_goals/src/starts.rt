// Where a search begins, on small contests under every rule.
ghost use Rattle.ballot_form.specs.Rules.{IsRule};

use crate::rolls::roll_of;
use ballot_form::{Cand, Rule};
use goal_rows::{Goal, race};
use std::alloc::Global;
use std::process::Abort;
use std::test::Fail;
use witness_build::{Witness, start_witness};

/// The candidates of a list, as letters.
fn letters(alloc: Global, row: &[Cand]) -> Result<String, Fail> {
    let mut text = String::new(alloc);
    for x in row {
        text.push(char::from(b'A'.wrapping_add(*x)))?;
    }
    Ok(text)
}

/// A goal by its kind and its candidates.
fn goal_text(alloc: Global, goal: &Goal) -> Result<String, Fail> {
    match goal {
        Goal::Root => Ok(String::from_str(alloc, "root")?),
        Goal::Suffix(suffix) => letters(alloc, suffix.as_slice()),
        Goal::Pair(gainer, loser) => letters(alloc, &[*gainer, *loser]),
        Goal::Cover(x) => letters(alloc, &[*x]),
    }
}

/// The goal of a witness, and its replacements, each as the number and the new ballot.
fn witness_text(alloc: Global, witness: &Witness) -> Result<String, Fail> {
    let mut text = goal_text(alloc, &witness.goal)?;
    for i in 0..witness.changes.len() {
        let row = letters(alloc, witness.changes.ballot(i))?;
        let put = format!(in alloc; " {}{}", witness.changes.number(i), row.as_str())?;
        text.push_str(put.as_str())?;
    }
    Ok(text)
}

/// What a search begins with, as text.
fn start_text(alloc: Global, rule: Rule, ballots: &str) -> Result<String, Fail>
    requires { IsRule rule }
{
    let roll = roll_of(alloc, ballots)?;
    let race = race(alloc, rule, &roll)?;
    match start_witness(alloc, &race)? {
        Some(witness) => witness_text(alloc, &witness),
        None => Ok(String::from_str(alloc, "none")?),
    }
}

/// A line of a table: ballots, and what a search begins with.
fn begins(rt: &impl Abort, alloc: Global, rule: Rule, line: &str) -> Result<(), Fail>
    requires { IsRule rule }
{
    let (ballots, want) = line.split_once(';').ok_or("no text")?;
    let found = start_text(alloc, rule, ballots)?;
    assert_eq!(rt; found.as_str(), want.trim());
    Ok(())
}

/// Instant runoff of twelve; a tie at the first elimination; a ballot that is cut behind its first candidate, and a tie
/// that goes against the winner; one candidate.
const RUNOFFS: &str = "\
3: 5 A, 4 BC, 3 CA; ACB 1B 2B
3: 4 A, 3 BC, 3 CA; ACB 1B 2B
3: 1 CA, 4 A, 3 B; CAB 1CB
1: 7 A; none
";

#[test]
fn starts_of_small_contests(rt: HostRuntime) -> Result<(), Fail> {
    for line in RUNOFFS.lines() {
        begins(&rt, rt.alloc(), Rule::Irv, line)?;
    }
    begins(
        &rt,
        rt.alloc(),
        Rule::Condorcet,
        "3: 1 ABC, 1 BCA, 1 CAB; A 2A",
    )?;
    begins(&rt, rt.alloc(), Rule::Plurality, "2: 5 A, 2 B; BA 1B 2B")?;
    begins(&rt, rt.alloc(), Rule::Borda, "3: 3 ABC, 2 BCA; AB 4A")
}
