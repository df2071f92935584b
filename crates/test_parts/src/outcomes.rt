// Admitted outcomes of small contests, decided by trying all that their definition speaks of: all settlings of the
// pairs, and all orders of elimination, each by its number.
mod admitted;
mod digits;
mod orders;
mod settlings;

use crate::rolls::roll_of;
use admitted::admits;
use ballot_form::{Outcome, Roll, Rule, SeatList};
use std::alloc::Global;
use std::process::Abort;
use std::test::Fail;

/// Who wins in some admitted outcome, and `nobody` where nobody winning is one.
fn winners(alloc: Global, rule: Rule, roll: &Roll) -> Result<String, Fail> {
    let mut text = String::new(alloc);
    for x in 0..roll.candidates() {
        if admits(alloc, rule, roll, &Outcome::Winner(x))? {
            text.push_str(format!(in alloc; " {x}")?.as_str())?;
        }
    }
    if admits(alloc, rule, roll, &Outcome::NoWinner)? {
        text.push_str(" nobody")?;
    }
    Ok(text)
}

/// A line of a table: ballots, and who wins in some admitted outcome.
fn has_winners(rt: &impl Abort, alloc: Global, rule: Rule, line: &str) -> Result<(), Fail> {
    let (ballots, want) = line.split_once(';').ok_or("no winners")?;
    let found = winners(alloc, rule, &roll_of(alloc, ballots)?)?;
    assert_eq!(rt; found.as_str(), want);
    Ok(())
}

/// Instant runoff of twelve; a tie at the first elimination.
const RUNOFFS: &str = "\
3: 5 A, 4 BC, 3 CA; 0
3: 4 A, 3 BC, 3 CA; 0 2
";

/// A cycle of three; two of which one is always chosen, whichever way the tie is settled.
const PAIRS: &str = "\
3: 1 ABC, 1 BCA, 1 CAB; nobody
2: 1 A, 1 B; 0 1
";

#[test]
fn the_outcome_of_some_choice_is_admitted(rt: HostRuntime) -> Result<(), Fail> {
    for line in RUNOFFS.lines() {
        has_winners(&rt, rt.alloc(), Rule::Irv, line)?;
    }
    for line in PAIRS.lines() {
        has_winners(&rt, rt.alloc(), Rule::Condorcet, line)?;
    }
    has_winners(&rt, rt.alloc(), Rule::Plurality, "2: 3 A, 3 B; 0 1")?;
    has_winners(&rt, rt.alloc(), Rule::Borda, "3: 3 ABC, 2 BCA; 1")
}

#[test]
fn an_allocation_is_admitted(rt: HostRuntime) -> Result<(), Fail> {
    let nine = roll_of(rt.alloc(), "2: 6 A, 3 B")?;
    for (s, first, second, expected) in [
        (3, 2, 1, true),
        (3, 3, 0, false),
        (2, 2, 0, true),
        (2, 1, 1, true),
        (2, 0, 2, false),
    ] {
        let shares = SeatList::from_slice(rt.alloc(), &[first, second])?;
        let found = admits(rt.alloc(), Rule::Dhondt(s), &nine, &Outcome::Seats(shares))?;
        assert_eq!(rt; found, expected);
    }
    Ok(())
}
