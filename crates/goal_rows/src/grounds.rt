// What a goal is before any replacement.
ghost use Rattle.std.specs.Prelude.{◌≡◌, ◌<◌, ◌≤◌, ◌+◌, ◌-◌, ◌*◌, pos, ◌-ℤ◌, [], ◌∷◌, IfOk, nat_eq};
ghost use Rattle.mov_base.specs.Sums.{add_up};
ghost use Rattle.signature_class.specs.Classes.{add_all};
ghost use Rattle.ballot_form.specs.Ballots.{IsValidBallot};
ghost use Rattle.ballot_form.specs.declared.rule.Rule.TheVariants.{Condorcet, Irv};
ghost use Rattle.goal_rows.specs.Goals.{IsReached, gainer_points, loser_points, pair_weight};
ghost use Rattle.goal_rows.specs.Races.{IsGroundOf, IsRace, election_of, key_of, keyed};
ghost use Rattle.goal_rows.specs.declared.goals.Goal.TheVariants.{Cover, Pair, Suffix};

use crate::goals::Goal;
use crate::parts::{Ground, Race, SumList};
use crate::points::{for_gainer, for_loser};
use crate::sums::{cover_values, suffix_values};
use ballot_form::{Cand, MOST_BALLOTS, Ranking};
use mov_base::Memory;
use signature_class::{Classes, cover_classes, cover_key, suffix_classes, suffix_key};
use std::alloc::Global;

/// The goal's classes of ballots, the value of each of its rows, the number of ballots, and the weight of the ballot
/// that ranks the gainer of a pair, or the candidate of a cover, alone. Each kind of ballot is looked at once.
pub fn ground(alloc: Global, race: &Race<'_>, goal: &Goal) -> Result<Ground, Memory>
    requires race { IsRace race.now }
    requires reached { IsReached (election_of race.now) goal.now }
    ensures goal { IfOk result (λ start. start.goal ≡ goal.now) }
    ensures values { IfOk result (IsGroundOf (election_of race.now)) }
{
    match goal {
        Goal::Root => Ok(Ground {
            goal: Goal::Root,
            classes: Classes::new(alloc),
            sums: SumList::new(alloc),
            ballots: race.roll.len(),
            lone: 0,
        }),
        Goal::Suffix(suffix) => under_suffix(alloc, race, suffix),
        Goal::Pair(gainer, loser) => under_pair(alloc, race, *gainer, *loser),
        Goal::Cover(x) => under_cover(alloc, race, *x),
    }
}

/// What a suffix is before any replacement.
fn under_suffix(alloc: Global, race: &Race<'_>, suffix: &Ranking) -> Result<Ground, Memory>
    requires race { IsRace race.now }
    requires rule { race.now.rule ≡ Irv }
    requires valid { IsValidBallot race.now.roll.now.c suffix.now }
    ensures goal { IfOk result (λ start. start.goal ≡ Suffix suffix.now) }
    ensures values { IfOk result (IsGroundOf (election_of race.now)) }
{
    let candidates = suffix.as_slice();
    let ballots = race.roll.len();
    let classes = suffix_classes(alloc, &race.kinds, candidates)?;
    let sums = suffix_values(alloc, &classes, candidates.len() as u8)?;
    let goal = Goal::Suffix(suffix.copy()?);
    Ok(Ground {
        goal,
        classes,
        sums,
        ballots,
        lone: 0,
    })
}

/// What a cover is before any replacement.
fn under_cover(alloc: Global, race: &Race<'_>, x: Cand) -> Result<Ground, Memory>
    requires race { IsRace race.now }
    requires rule { race.now.rule ≡ Condorcet }
    requires below { x < race.now.roll.now.c }
    ensures goal { IfOk result (λ start. start.goal ≡ Cover x) }
    ensures values { IfOk result (IsGroundOf (election_of race.now)) }
{
    let ballots = race.roll.len();
    let classes = cover_classes(alloc, &race.kinds, x)?;
    let sums = cover_values(alloc, &classes, race.roll.candidates(), x)?;
    Ok(Ground {
        goal: Goal::Cover(x),
        classes,
        sums,
        ballots,
        lone: 1,
    })
}

/// What a pair is before any replacement.
#[tactic(auto, using(crate::proofs::Classed::pair_values, crate::proofs::Classed::few_kinds))]
fn under_pair(alloc: Global, race: &Race<'_>, gainer: Cand, loser: Cand) -> Result<Ground, Memory>
    requires race { IsRace race.now }
    ensures goal { IfOk result (λ start. start.goal ≡ Pair gainer loser) }
    ensures values { IfOk result (IsGroundOf (election_of race.now)) }
{
    let ballots = race.roll.len();
    let tally = tally_kinds(alloc, race, gainer, loser)?;
    let sums = one_sum(alloc, difference(tally.gained, tally.lost))?;
    Ok(Ground {
        goal: Goal::Pair(gainer, loser),
        classes: tally.classes,
        sums,
        ballots,
        lone: weight(race, gainer, loser, &[gainer]),
    })
}

/// The weight that the pair's row gives the ballot.
fn weight(race: &Race<'_>, gainer: Cand, loser: Cand, row: &[Cand]) -> i64
    ensures { result ≡ pair_weight (election_of race.now) gainer loser row.now }
{
    difference(
        for_gainer(race, gainer, loser, row),
        for_loser(race, gainer, loser, row),
    )
}

/// How far the first number is above the second one.
fn difference(gained: u64, lost: u64) -> i64
    requires few_gained { gained ≤ 65536000000 }
    requires few_lost { lost ≤ 65536000000 }
    ensures { result ≡ pos gained -ℤ pos lost }
{
    gained as i64 - lost as i64
}

/// The list of one sum.
fn one_sum(alloc: Global, sum: i64) -> Result<SumList, Memory>
    ensures { IfOk result (λ sums. sums ≡ sum ∷ []) }
{
    let mut sums = SumList::new(alloc);
    sums.push(sum)?;
    Ok(sums)
}

/// What the ballots are under a pair.
#[derive(Drop)]
struct Tally {
    /// Their classes by key.
    classes: Classes,
    /// What they count for the gainer.
    gained: u64,
    /// What they count for the loser.
    lost: u64,
}

/// The kinds by their key under the pair, and what all ballots count for the gainer and for the loser. Each kind is
/// looked at once.
#[tactic(auto, using(crate::proofs::Classed::class_room, crate::proofs::Classed::kinds_few))]
fn tally_kinds(alloc: Global, race: &Race<'_>, gainer: Cand, loser: Cand) -> Result<Tally, Memory>
    requires few { add_up (λ k. k.1) race.now.kinds ≤ MOST_BALLOTS }
    ensures classes { IfOk result (λ tally.
        tally.classes ≡ add_all nat_eq [] (keyed (key_of (election_of race.now) (Pair gainer loser)) race.now.kinds)) }
    ensures gained { IfOk result (λ tally.
        tally.gained ≡ add_up (λ k. k.1 * gainer_points (election_of race.now) gainer loser k.0) race.now.kinds) }
    ensures lost { IfOk result (λ tally.
        tally.lost ≡ add_up (λ k. k.1 * loser_points (election_of race.now) gainer loser k.0) race.now.kinds) }
    ensures few_gained { IfOk result (λ tally. tally.gained ≤ 65536000000) }
    ensures few_lost { IfOk result (λ tally. tally.lost ≤ 65536000000) }
{
    let mut classes = Classes::new(alloc);
    let mut gained = 0;
    let mut lost = 0;
    for i in 0..race.kinds.len() {
        let row = race.kinds.row(i);
        let count = race.kinds.count(i);
        let plus = for_gainer(race, gainer, loser, row);
        let minus = for_loser(race, gainer, loser, row);
        classes.add(pair_key(plus, minus), count)?;
        gained += u64::from(count) * plus;
        lost += u64::from(count) * minus;
    }
    Ok(Tally {
        classes,
        gained,
        lost,
    })
}

/// The key of a ballot under a goal: its class in the goal's ground.
pub fn key(race: &Race<'_>, goal: &Goal, row: &[Cand]) -> u64
    requires race { IsRace race.now }
    requires reached { IsReached (election_of race.now) goal.now }
    ensures { result ≡ key_of (election_of race.now) goal.now row.now }
{
    match goal {
        Goal::Root => 0,
        Goal::Suffix(suffix) => suffix_key(row, suffix.as_slice()),
        Goal::Pair(gainer, loser) => pair_key(
            for_gainer(race, *gainer, *loser, row),
            for_loser(race, *gainer, *loser, row),
        ),
        Goal::Cover(x) => cover_key(row, *x),
    }
}

/// The key of a ballot that counts so much for the gainer of a pair, and so much for the loser.
fn pair_key(plus: u64, minus: u64) -> u64
    requires few { plus ≤ 65536 }
    ensures { result ≡ (plus + 1024) - minus }
{
    (plus + 1024).saturating_sub(minus)
}
