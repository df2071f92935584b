// The cut test on small contests of two candidates.
ghost use Rattle.std.specs.Prelude.{◌<◌, [], ◌∷◌};
ghost use Rattle.exact_num.specs.declared.limits.TheConstants.{WIDE};
ghost use Rattle.dual_bound.specs.CutTest.{AreMultipliers};
ghost use Rattle.goal_rows.specs.Races.{IsSomeGround};

use crate::rolls::{number, roll_of};
use ballot_form::Rule;
use dual_bound::{Scratch, bound_of, cuts};
use goal_rows::parts::Ground;
use goal_rows::{Goal, ground, is_complete, race};
use std::alloc::Global;
use std::process::Abort;
use std::test::Fail;

/// The greatest number at which the multiplier cuts the goal; it is cut at just this number, and not at the next.
fn bound_in(rt: &impl Abort, alloc: Global, start: &Ground, multiplier: u64) -> Result<u32, Fail>
    requires start { IsSomeGround start.now }
    requires multipliers { AreMultipliers start.now [] (multiplier ∷ []) }
{
    let mut scratch = Scratch::for_classes(alloc, start.classes.len())?;
    let bound = bound_of(start, &[], &[multiplier], &mut scratch);
    assert!(rt; bound <= start.ballots);
    assert!(rt; cuts(start, &[], &[multiplier], bound, &mut scratch));
    assert!(rt; !cuts(start, &[], &[multiplier], bound + 1, &mut scratch));
    Ok(bound)
}

/// The same of the pair in which the second candidate gains on the first under plurality.
fn pair_bound(rt: &impl Abort, alloc: Global, ballots: &str, multiplier: u64) -> Result<u32, Fail>
    requires { multiplier < WIDE }
{
    let roll = roll_of(alloc, ballots)?;
    let race = race(alloc, Rule::Plurality, &roll)?;
    let pair = Goal::Pair(1, 0);
    if !is_complete(&race, &pair) {
        return Err("another one won".into());
    }
    let start = ground(alloc, &race, &pair)?;
    bound_in(rt, alloc, &start, multiplier)
}

/// A line of the table.
fn is_cut(rt: &impl Abort, alloc: Global, line: &str) -> Result<(), Fail> {
    let mut fields = line.splitn(3, ';');
    let ballots = fields.next().ok_or("no ballots")?;
    let multiplier = u64::from(number(fields.next().ok_or("no multiplier")?)?);
    let bound = pair_bound(rt, alloc, ballots, multiplier)?;
    assert_eq!(rt; bound, number(fields.next().ok_or("no bound")?)?);
    Ok(())
}

/// Five against two; five against four blank ballots; a tie already there; no ballots. Ballots; the multiplier; the
/// bound.
const PAIRS: &str = "\
2: 5 A, 2 B; 1; 2
2: 5 A, 2 B; 0; 0
2: 5 A, 2 B; 4294967295; 2
2: 5 A, 4; 1; 3
2: 3 A, 3 B; 1; 0
2: ; 1; 0
";

#[test]
fn a_pair_is_cut_up_to_its_bound(rt: HostRuntime) -> Result<(), Fail> {
    for line in PAIRS.lines() {
        is_cut(&rt, rt.alloc(), line)?;
    }
    let greatest = 9_223_372_036_854_775_807;
    assert_eq!(rt; pair_bound(&rt, rt.alloc(), "2: 5 A, 2 B", greatest)?, 2);
    Ok(())
}

#[test]
fn the_root_is_cut_at_none(rt: HostRuntime) -> Result<(), Fail> {
    let roll = roll_of(rt.alloc(), "2: 5 A")?;
    let race = race(rt.alloc(), Rule::Plurality, &roll)?;
    let start = ground(rt.alloc(), &race, &Goal::Root)?;
    let mut scratch = Scratch::for_classes(rt.alloc(), start.classes.len())?;
    assert_eq!(rt; bound_of(&start, &[], &[], &mut scratch), 0);
    assert!(rt; cuts(&start, &[], &[], 0, &mut scratch));
    Ok(())
}
