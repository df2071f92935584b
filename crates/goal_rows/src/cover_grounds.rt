// What the goals that a goal is split into are before any replacement.
ghost use Rattle.std.specs.Prelude.{◌≡◌, ◌≤◌, ◌<◌, ◌^◌, false, [], ◌∷◌, All, IfOk, IfSome, length, map, nat_eq, option_map};
ghost use Rattle.ballot_form.specs.Ballots.{IsValidBallot};
ghost use Rattle.ballot_form.specs.declared.limits.TheConstants.{MOST_BALLOTS};
ghost use Rattle.ballot_form.specs.declared.rule.Rule.TheVariants.{Irv};
ghost use Rattle.goal_rows.specs.Goals.{IsReached, cover_of};
ghost use Rattle.goal_rows.specs.LongerKeys.{IsTold, class_behind, goals_of, key_behind, leaders_key, told_of};
ghost use Rattle.goal_rows.specs.Races.{IsGroundOf, IsRace, election_of};
ghost use Rattle.goal_rows.specs.declared.goals.Goal.TheVariants.{Suffix};
ghost use Rattle.irv_count.specs.Orders.{holder, member};
ghost use Rattle.mov_base.specs.Sums.{add_up};
ghost use Rattle.signature_class.specs.Classes.{add_all};
ghost use Rattle.signature_class.specs.declared.limits.TheConstants.{MOST_PLACES};

use crate::goals::Goal;
use crate::grounds::ground;
use crate::kids::{has, in_front};
use crate::parts::{Ground, GroundList, Race};
use crate::sums::suffix_values;
use ballot_form::{Cand, Ranking};
use irv_count::stands_in;
use mov_base::Memory;
use signature_class::parts::Kinds;
use signature_class::{Classes, cover_key, suffix_key};
use std::alloc::Global;

/// The grounds of the goals that a goal is split into, in their order; none where it has no cover. Under a suffix each
/// kind of ballot is looked at once for all of them.
pub fn kid_grounds(
    alloc: Global,
    race: &Race<'_>,
    goal: &Goal,
) -> Result<Option<GroundList>, Memory>
    requires race { IsRace race.now }
    requires reached { IsReached (election_of race.now) goal.now }
    ensures goals { IfOk result (λ starts. option_map goals_of starts ≡ cover_of (election_of race.now) goal.now) }
    ensures values { IfOk result (λ starts. IfSome starts (All (IsGroundOf (election_of race.now)))) }
{
    match goal {
        Goal::Root => Ok(Some(root_grounds(alloc, race)?)),
        Goal::Suffix(suffix) => longer_grounds(alloc, race, suffix),
        Goal::Pair(_, _) => Ok(None),
        Goal::Cover(_) => Ok(None),
    }
}

/// The grounds of the goals that the root is split into.
fn root_grounds(alloc: Global, race: &Race<'_>) -> Result<GroundList, Memory>
    requires race { IsRace race.now }
    ensures goals { IfOk result (λ starts. goals_of starts ≡ race.now.roots) }
    ensures values { IfOk result (All (IsGroundOf (election_of race.now))) }
{
    let mut starts = GroundList::new(alloc);
    for kid in race.roots.as_slice() {
        starts.push(ground(alloc, race, kid)?)?;
    }
    Ok(starts)
}

/// The grounds of the suffixes with one of the candidates more, in front; none where it has all of them.
fn longer_grounds(
    alloc: Global,
    race: &Race<'_>,
    suffix: &Ranking,
) -> Result<Option<GroundList>, Memory>
    requires race { IsRace race.now }
    requires rule { race.now.rule ≡ Irv }
    requires valid { IsValidBallot race.now.roll.now.c suffix.now }
    requires some { 1 ≤ length suffix.now }
    ensures goals { IfOk result (λ starts.
        option_map goals_of starts ≡ cover_of (election_of race.now) (Suffix suffix.now)) }
    ensures values { IfOk result (λ starts. IfSome starts (All (IsGroundOf (election_of race.now)))) }
{
    let candidates = suffix.as_slice();
    let c = race.roll.candidates();
    if candidates.len() >= usize::from(c) {
        return Ok(None);
    }
    let told = told_kinds(alloc, &race.kinds, candidates)?;
    let mut starts = GroundList::new(alloc);
    for z in 0..c {
        if !has(candidates, z) {
            starts.push(kid_ground(alloc, race, z, candidates, &told)?)?;
        }
    }
    Ok(Some(starts))
}

/// What the suffix with the candidate in front is before any replacement, from what each kind tells under the suffix.
fn kid_ground(
    alloc: Global,
    race: &Race<'_>,
    z: Cand,
    suffix: &[Cand],
    told: &[Told],
) -> Result<Ground, Memory>
    requires race { IsRace race.now }
    requires rule { race.now.rule ≡ Irv }
    requires valid { IsValidBallot race.now.roll.now.c suffix.now }
    requires below { z < race.now.roll.now.c }
    requires another { member z suffix.now ≡ false }
    requires told { told.now ≡ map (told_of suffix.now) race.now.kinds }
    ensures goal { IfOk result (λ start. start.goal ≡ Suffix (z ∷ suffix.now)) }
    ensures values { IfOk result (IsGroundOf (election_of race.now)) }
{
    let ballots = race.roll.len();
    let ranking = in_front(alloc, z, suffix)?;
    let classes = kid_classes(alloc, told, z)?;
    let sums = suffix_values(alloc, &classes, ranking.len() as u8)?;
    Ok(Ground {
        goal: Goal::Suffix(ranking),
        classes,
        sums,
        ballots,
        lone: 0,
    })
}

/// What a kind of ballot tells of its keys under a suffix, and under those with one candidate more in front.
#[derive(Clone, Copy)]
struct Told {
    /// Its key under the suffix.
    key: u64,
    /// The set of those who hold it where they and all of the suffix stand.
    leaders: u64,
    /// How many ballots of this kind there are.
    count: u32,
}

/// What each kind tells, in the order of the kinds.
fn told_kinds(alloc: Global, kinds: &Kinds<'_>, suffix: &[Cand]) -> Result<Vec<Told>, Memory>
    requires some { 1 ≤ length suffix.now }
    requires few { length suffix.now ≤ MOST_PLACES }
    ensures { IfOk result (λ told. told.items ≡ map (told_of suffix.now) kinds.now) }
{
    let mut told = Vec::with_capacity(alloc, kinds.len())?;
    for i in 0..kinds.len() {
        let row = kinds.row(i);
        told.push(Told {
            key: suffix_key(row, suffix),
            leaders: leaders(row, suffix),
            count: kinds.count(i),
        })?;
    }
    Ok(told)
}

/// The set of those who hold the ballot where they and all of the suffix stand: of those up to the first of the suffix
/// that it ranks.
fn leaders(row: &[Cand], suffix: &[Cand]) -> u64
    requires { 1 ≤ length suffix.now }
    ensures { result ≡ leaders_key suffix.now row.now }
{
    match holder_of(row, suffix) {
        Some(x) => cover_key(row, x),
        None => cover_key(row, suffix[0]),
    }
}

/// The first candidate on the ballot that is in the suffix.
fn holder_of(row: &[Cand], suffix: &[Cand]) -> Option<Cand>
    ensures { result ≡ holder (λ x. member x suffix.now) row.now }
{
    row.iter().copied().find(|x| has(suffix, *x))
}

/// The classes of the ballots, from what each kind tells, where the candidate is put in front of the suffix.
fn kid_classes(alloc: Global, told: &[Told], z: Cand) -> Result<Classes, Memory>
    requires few { add_up (λ kind. kind.count) told.now ≤ MOST_BALLOTS }
    requires each { All IsTold told.now }
    ensures { IfOk result (λ classes. classes ≡ add_all nat_eq [] (map (class_behind z) told.now)) }
{
    let mut classes = Classes::new(alloc);
    for kind in told {
        classes.add(kid_key(kind, z), kind.count)?;
    }
    Ok(classes)
}

/// The key of a kind where the candidate is put in front of the suffix: moved up by one bit, with the lowest one set
/// where the candidate holds it.
fn kid_key(kind: &Told, z: Cand) -> u64
    requires { kind.now.key < 2 ^ MOST_PLACES }
    ensures { result ≡ key_behind z kind.now }
{
    2 * kind.key + u64::from(stands_in(kind.leaders, z))
}
