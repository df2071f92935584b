// Valid ballots, a roll that lends its ballots and one that is full, and copies of what contests are made of.
use crate::rolls::{cands, roll_of};
use ballot_form::{
    MOST_BALLOTS, Outcome, PushFault, Ranking, Rule, RuleName, SeatList, Text, first_counts,
    valid_row,
};
use std::alloc::Global;
use std::process::Abort;
use std::test::Fail;

/// Whether the letters are a valid ballot of three candidates.
fn is_valid(alloc: Global, letters: &str) -> Result<bool, Fail> {
    Ok(valid_row(cands(alloc, letters)?.as_slice(), 3))
}

#[test]
fn valid_ballots_are_told_from_others(rt: HostRuntime) -> Result<(), Fail> {
    for letters in ["", "B", "CAB"] {
        assert!(rt; is_valid(rt.alloc(), letters)?, "at {letters}");
    }
    for letters in ["D", "AA", "ABCA"] {
        assert!(rt; !is_valid(rt.alloc(), letters)?, "at {letters}");
    }
    Ok(())
}

#[test]
fn a_roll_lends_its_ballots(rt: HostRuntime) -> Result<(), Fail> {
    let roll = roll_of(rt.alloc(), "3: 2 CB, 1")?;
    assert_eq!(rt; roll.len(), 3);
    assert_eq!(rt; roll.row(1), [2, 1].as_slice());
    assert_eq!(rt; roll.first(0), Some(2));
    assert_eq!(rt; roll.first(2), None);
    assert_eq!(rt; roll.rows().filter(|row| row.len() == 2).count(), 2);
    assert_eq!(rt; roll.candidates(), 3);
    let mut counts = [9u64; 3];
    first_counts(&roll, counts.as_mut_slice());
    assert_eq!(rt; counts.as_slice(), [0, 0, 2].as_slice());
    Ok(())
}

#[test]
fn runs_are_the_longest_ones(rt: HostRuntime) -> Result<(), Fail> {
    let roll = roll_of(rt.alloc(), "2: 2 A, 3 A, 0 B, 2 B")?;
    let mut given = roll.runs();
    for (row, first, count) in [([0], 1, 5), ([1], 6, 2)] {
        let Some(run) = given.next() else {
            return Err("a run too few".into());
        };
        assert_eq!(rt; run.row, row.as_slice());
        assert_eq!(rt; (run.first, run.count), (first, count));
    }
    assert!(rt; given.next().is_none());
    Ok(())
}

/// Adds ballots for the only candidate, and says how that went and how many there are then.
fn grown(alloc: Global, before: &str, count: u32) -> Result<(&'static str, u32), Fail> {
    let mut roll = roll_of(alloc, before)?;
    if !valid_row(&[0], roll.candidates()) {
        return Err("no candidate".into());
    }
    let how = match roll.push_times(&[0], count) {
        Ok(()) => "taken",
        Err(PushFault::TooMany) => "too many",
        Err(PushFault::Memory) => "no memory",
    };
    Ok((how, roll.len()))
}

#[test]
fn a_full_roll_refuses(rt: HostRuntime) -> Result<(), Fail> {
    assert_eq!(rt; grown(rt.alloc(), "1: 999999 A", 2)?, ("too many", 999_999));
    assert_eq!(rt;
        grown(rt.alloc(), "1: 999999 A", 1)?,
        ("taken", MOST_BALLOTS)
    );
    Ok(())
}

/// Rankings and texts.
fn copies_of_names(rt: &impl Abort, alloc: Global) -> Result<(), Fail> {
    let mut ranking = Ranking::new(alloc);
    ranking.push(4)?;
    ranking.push(2)?;
    let copy = ranking.copy()?;
    assert_eq!(rt; copy.len(), 2);
    assert_eq!(rt; copy.as_slice(), [4, 2].as_slice());
    let ranking = Ranking::from_slice(alloc, [1, 0].as_slice())?;
    assert_eq!(rt; ranking.as_slice(), [1, 0].as_slice());
    assert_eq!(rt; Text::of(alloc, "North")?.copy()?.as_str(), "North");
    Ok(())
}

/// Outcomes.
fn copies_of_outcomes(rt: &impl Abort, alloc: Global) -> Result<(), Fail> {
    let seats = Outcome::Seats(SeatList::from_slice(alloc, [500].as_slice())?);
    let copy = seats.copy()?;
    assert!(rt; matches!(&copy, Outcome::Seats(list) if list.as_slice() == [500].as_slice()));
    assert!(rt; copy.equals(&seats));
    assert!(rt; !copy.equals(&Outcome::NoWinner));
    assert!(rt; matches!(Outcome::Winner(3).copy()?, Outcome::Winner(3)));
    Ok(())
}

#[test]
fn parts_of_a_contest_are_copied(rt: HostRuntime) -> Result<(), Fail> {
    copies_of_names(&rt, rt.alloc())?;
    copies_of_outcomes(&rt, rt.alloc())
}

#[test]
fn rules_have_names(rt: HostRuntime) {
    let rules = [
        (Rule::Plurality, "plurality"),
        (Rule::Borda, "borda"),
        (Rule::Condorcet, "condorcet"),
        (Rule::Dhondt(3), "dhondt"),
        (Rule::Irv, "irv"),
    ];
    for (rule, text) in rules {
        assert_eq!(rt; rule.name().text(), text);
        assert_eq!(rt; RuleName::named(text.as_bytes()), Some(rule.name()));
    }
    assert_eq!(rt; RuleName::named(b"irv "), None);
}
