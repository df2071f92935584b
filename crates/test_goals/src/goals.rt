// The reported outcome of small contests, goals and their rows.
ghost use Rattle.goal_rows.specs.Races.{IsRace};

use crate::rolls::{cands, roll_of};
use ballot_form::{MOST_CANDIDATES, Outcome, Ranking, Roll, Rule, valid_row};
use goal_rows::parts::{Ground, Race};
use goal_rows::{
    Goal, MOST_ROWS, cover, ground, is_complete, kid_count, race, reported, row_count, rows_hold,
};
use std::alloc::Global;
use std::process::Abort;
use std::test::Fail;

#[test]
fn the_lowest_numbered_of_the_greatest_is_reported(rt: HostRuntime) -> Result<(), Fail> {
    for (ballots, winner) in [("3: ", 0), ("3: 3 CA", 2), ("3: 3 CA, 3 B", 1)] {
        let roll = roll_of(rt.alloc(), ballots)?;
        let outcome = reported(rt.alloc(), Rule::Plurality, &roll)?;
        assert!(rt; outcome.equals(&Outcome::Winner(winner)), "at {ballots}");
    }
    Ok(())
}

#[test]
fn goals_are_copied(rt: HostRuntime) -> Result<(), Fail> {
    assert!(rt; matches!(Goal::Root.copy()?, Goal::Root));
    assert!(rt; matches!(Goal::Pair(1, 0).copy()?, Goal::Pair(1, 0)));
    Ok(())
}

/// Whether all rows of a goal hold after the replacements, where it is complete and the rolls have the same sizes.
fn holds(race: &Race<'_>, after: &Roll, goal: &Goal) -> Option<bool> {
    let mut scratch = [0i64; MOST_ROWS];
    if is_complete(race, goal)
        && after.candidates() == race.roll.candidates()
        && after.len() == race.roll.len()
    {
        Some(rows_hold(race, after, goal, scratch.as_mut_slice()))
    } else {
        None
    }
}

#[test]
fn the_root_is_covered_by_its_pairs(rt: HostRuntime) -> Result<(), Fail> {
    let roll = roll_of(rt.alloc(), "2: 5 A, 2 B")?;
    let race = race(rt.alloc(), Rule::Plurality, &roll)?;
    let pair = Goal::Pair(1, 0);
    assert!(rt; matches!(race.reported, Outcome::Winner(0)));
    assert_eq!(rt;
        (kid_count(&race, &Goal::Root), kid_count(&race, &pair)),
        (Some(1), None)
    );
    assert_eq!(rt;
        (row_count(&race, &Goal::Root), row_count(&race, &pair)),
        (0, 1)
    );
    let kids = cover(rt.alloc(), &race, &Goal::Root)?.ok_or("no cover")?;
    assert!(rt; matches!(kids.as_slice(), [Goal::Pair(1, 0)]));
    assert!(rt; !is_complete(&race, &Goal::Pair(0, 1)) && !is_complete(&race, &Goal::Root));
    assert_eq!(rt; holds(&race, &roll, &pair), Some(false));
    let after = roll_of(rt.alloc(), "2: 3 A, 4 B")?;
    assert_eq!(rt; holds(&race, &after, &pair), Some(true));
    Ok(())
}

/// The ground as text: the values of its rows, its ballots, the gainer's own weight, and its classes with their counts.
fn ground_text(alloc: Global, start: &Ground) -> Result<String, Fail> {
    let sums = start.sums.as_slice();
    let mut text = format!(in alloc; "{sums:?} {} {}", start.ballots, start.lone)?;
    for i in 0..start.classes.len() {
        let (key, count) = (start.classes.key(i), start.classes.count(i));
        text.push_str(format!(in alloc; " {key}:{count}")?.as_str())?;
    }
    Ok(text)
}

/// The ground of a complete goal as text.
fn complete_text(alloc: Global, race: &Race<'_>, goal: &Goal) -> Result<String, Fail>
    requires { IsRace race.now }
{
    if !is_complete(race, goal) {
        return Err("not complete".into());
    }
    ground_text(alloc, &ground(alloc, race, goal)?)
}

/// The ground of a pair as text.
fn pair_text(alloc: Global, race: &Race<'_>, gainer: u8, loser: u8) -> Result<String, Fail>
    requires { IsRace race.now }
{
    complete_text(alloc, race, &Goal::Pair(gainer, loser))
}

/// The suffix of the candidates that letters stand for.
fn suffix(alloc: Global, letters: &str) -> Result<Goal, Fail> {
    let row = cands(alloc, letters)?;
    if !valid_row(row.as_slice(), MOST_CANDIDATES) {
        return Err("a candidate twice".into());
    }
    Ok(Goal::Suffix(Ranking::from_slice(alloc, row.as_slice())?))
}

/// How many rows a goal has, how many kids, and its ground where it is complete.
fn goal_text(alloc: Global, race: &Race<'_>, goal: &Goal) -> Result<String, Fail>
    requires { IsRace race.now }
{
    let (rows, kids) = (row_count(race, goal), kid_count(race, goal));
    if !is_complete(race, goal) {
        return Ok(format!(in alloc; "{rows} {kids:?}")?);
    }
    let text = complete_text(alloc, race, goal)?;
    Ok(format!(in alloc; "{rows} {kids:?} {}", text.as_str())?)
}

/// A line of a table: a suffix, and its text.
fn is_suffix(rt: &impl Abort, alloc: Global, race: &Race<'_>, line: &str) -> Result<(), Fail>
    requires { IsRace race.now }
{
    let (letters, want) = line.split_once(';').ok_or("no text")?;
    let goal = suffix(alloc, letters)?;
    let text = goal_text(alloc, race, &goal)?;
    assert_eq!(rt; text.as_str(), want.trim());
    Ok(())
}

/// Whether the rows of a goal hold on the ballots that a text writes.
fn holds_on(alloc: Global, race: &Race<'_>, goal: &Goal, ballots: &str) -> Result<bool, Fail> {
    let after = roll_of(alloc, ballots)?;
    Ok(holds(race, &after, goal).ok_or("not complete")?)
}

/// Suffixes of a runoff: of all candidates, in the order in which they go out with one other winner, and with the
/// reported one; of one candidate, who can't win first.
const SUFFIXES: &str = "\
CBA; 3 None [2, 3, -1] 12 0 4:5 2:4 3:2 0:1
ACB; 3 None
A; 0 Some(2)
";

#[test]
fn suffixes_of_a_runoff(rt: HostRuntime) -> Result<(), Fail> {
    let roll = roll_of(rt.alloc(), "3: 5 A, 4 BC, 2 CB, 1")?;
    let race = race(rt.alloc(), Rule::Irv, &roll)?;
    for line in SUFFIXES.lines() {
        is_suffix(&rt, rt.alloc(), &race, line)?;
    }
    let goal = suffix(rt.alloc(), "CBA")?;
    for (ballots, held) in [
        ("3: 5 A, 4 BC, 2 CB, 1", false),
        ("3: 6 A, 3 BC, 2 CB, 1", true),
    ] {
        assert_eq!(rt; holds_on(rt.alloc(), &race, &goal, ballots)?, held);
    }
    Ok(())
}

#[test]
fn covers_of_a_cycle(rt: HostRuntime) -> Result<(), Fail> {
    let roll = roll_of(rt.alloc(), "3: 1 ABC, 1 BCA, 1 CAB")?;
    let race = race(rt.alloc(), Rule::Condorcet, &roll)?;
    let goal = Goal::Cover(0);
    let text = goal_text(rt.alloc(), &race, &goal)?;
    assert_eq!(rt; text.as_str(), "2 None [1, -1] 3 1 1:1 7:1 5:1");
    for (ballots, held) in [
        ("3: 1 ABC, 1 BCA, 1 CAB", false),
        ("3: 1 ABC, 1 A, 1 CAB", true),
    ] {
        assert_eq!(rt; holds_on(rt.alloc(), &race, &goal, ballots)?, held);
    }
    Ok(())
}

#[test]
fn five_against_two(rt: HostRuntime) -> Result<(), Fail> {
    let roll = roll_of(rt.alloc(), "2: 5 A, 2 B")?;
    let race = race(rt.alloc(), Rule::Plurality, &roll)?;
    let text = pair_text(rt.alloc(), &race, 1, 0)?;
    assert_eq!(rt; text.as_str(), "[-3] 7 1 1023:5 1025:2");
    Ok(())
}

#[test]
fn borda_of_five(rt: HostRuntime) -> Result<(), Fail> {
    let roll = roll_of(rt.alloc(), "3: 3 ABC, 2 BCA")?;
    let race = race(rt.alloc(), Rule::Borda, &roll)?;
    assert!(rt; matches!(race.reported, Outcome::Winner(1)));
    assert!(rt; matches!(race.roots.as_slice(), [Goal::Pair(0, 1), Goal::Pair(2, 1)]));
    let text = pair_text(rt.alloc(), &race, 0, 1)?;
    assert_eq!(rt; text.as_str(), "[-1] 5 2 1025:3 1022:2");
    Ok(())
}

#[test]
fn seats_of_nine(rt: HostRuntime) -> Result<(), Fail> {
    let roll = roll_of(rt.alloc(), "2: 6 A, 3 B")?;
    let race = race(rt.alloc(), Rule::Dhondt(3), &roll)?;
    assert!(rt; matches!(race.roots.as_slice(), [Goal::Pair(0, 1), Goal::Pair(1, 0)]));
    let text = pair_text(rt.alloc(), &race, 0, 1)?;
    assert_eq!(rt; text.as_str(), "[-3] 9 1 1025:6 1021:3");
    let text = pair_text(rt.alloc(), &race, 1, 0)?;
    assert_eq!(rt; text.as_str(), "[-6] 9 2 1022:6 1026:3");
    let after = roll_of(rt.alloc(), "2: 7 A, 2 B")?;
    assert_eq!(rt; holds(&race, &after, &Goal::Pair(0, 1)), Some(true));
    assert_eq!(rt; holds(&race, &roll, &Goal::Pair(0, 1)), Some(false));
    Ok(())
}
