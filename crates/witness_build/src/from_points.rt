// The replacements that a point stands for.
ghost use Rattle.std.specs.Prelude.{◌≡◌, ◌≢◌, ◌<◌, ◌≤◌, ℕ, [], ◌∷◌, All, Contains, IfOk};
ghost use Rattle.std.specs.Prelude.{length, map, replicate, slice_index_or};
ghost use Rattle.std.specs.List.{zip};
ghost use Rattle.alteration_model.specs.Faults.{pairs_of};
ghost use Rattle.ballot_form.specs.Ballots.{AreDistinct};
ghost use Rattle.sig_graph.specs.Flows.{IsFlow};
ghost use Rattle.sig_graph.specs.Paths.{IsPath, ballot_of};
ghost use Rattle.sig_graph.specs.Walks.{split_of};
ghost use Rattle.signature_class.specs.Classes.{keys_of};
ghost use Rattle.goal_rows.specs.Goals.{IsComplete};
ghost use Rattle.goal_rows.specs.Races.{IsGroundIn, IsRace, IsSomeGround, election_of};
ghost use Rattle.witness_build.specs.FromPoints.{IsFlowUnder, IsPointWithout, arcs_at, changes_at, replaced_at};
ghost use Rattle.witness_build.specs.FromPoints.{new_ballots as ballots_by, replaced_numbers as numbers_at};
ghost use Rattle.witness_build.specs.Witnesses.{IsMetBy};

use crate::chosen::{NumberList, push_numbers};
use crate::pairs::Witness;
use alteration_model::{Alteration, Put};
use ballot_form::{Cand, CandList};
use goal_rows::parts::{Ground, Race};
use goal_rows::{Goal, key};
use mov_base::{List, Memory};
use row_program::Point;
use sig_graph::{Path, path_ballot, split_flow};
use signature_class::Classes;
use std::alloc::Global;

/// New ballots, one after another.
type BallotList = List<CandList>;

/// The replacements that a whole point of a complete goal's program without limits stands for: in each class the
/// lowest-numbered ballots, as many as its variable says. In ascending order of number they get the paths of
/// `split_flow` in order, as ballots; for a cover the candidate alone each, for a pair the gainer alone each. There are
/// as many as the point costs, and the rows of the goal hold after them.
pub fn from_point(
    alloc: Global,
    race: &Race<'_>,
    start: &Ground,
    point: &Point,
) -> Result<Witness, Memory>
    requires race { IsRace race.now }
    requires start { IsGroundIn (election_of race.now) start.now }
    requires complete { IsComplete (election_of race.now) start.now.goal }
    requires point { IsPointWithout start.now point.now.whole }
    requires whole { point.now.den ≡ 1 }
    ensures goal { IfOk result (λ w. w.goal ≡ start.now.goal) }
    ensures changes { IfOk result (λ w. w.changes ≡ changes_at (election_of race.now) start.now point.now.whole) }
    ensures length { IfOk result (λ w. length w.changes ≡ replaced_at start.now point.now.whole) }
    ensures met { IfOk result (λ w. IsMetBy (election_of race.now) w.goal w.changes) }
{
    let numbers = replaced_numbers(alloc, race, start, point.whole.as_slice())?;
    let flow = flow_of(alloc, start, point.whole.as_slice())?;
    let ballots = new_ballots(alloc, start, flow.as_slice(), numbers.len() as u32)?;
    let puts = puts_of(alloc, numbers.as_slice(), ballots.as_slice())?;
    let changes = Alteration::from_puts(alloc, race.roll, puts.as_slice())?;
    let goal = start.goal.copy()?;
    Ok(Witness { goal, changes })
}

/// The numbers of the ballots that the point replaces, ascending, in one pass over the runs of equal ballots.
fn replaced_numbers(
    alloc: Global,
    race: &Race<'_>,
    start: &Ground,
    whole: &[u64],
) -> Result<NumberList, Memory>
    requires race { IsRace race.now }
    requires start { IsGroundIn (election_of race.now) start.now }
    requires complete { IsComplete (election_of race.now) start.now.goal }
    requires point { IsPointWithout start.now whole.now }
    ensures { IfOk result (λ numbers. numbers ≡ numbers_at (election_of race.now) start.now whole.now) }
{
    let mut left = Vec::from_slice(alloc, whole)?;
    let mut numbers = Vec::new(alloc);
    for run in race.roll.runs() {
        let class = class_of(&start.classes, key(race, &start.goal, run.row));
        let count = left[class].min(u64::from(run.count));
        left[class] -= count;
        push_numbers(&mut numbers, run.first, count as u32)?;
    }
    Ok(List::from_vec(numbers))
}

/// The place, from 0, of the first class with a key.
fn class_of(classes: &Classes, key: u64) -> usize
    requires { Contains (keys_of classes.now) key }
    ensures within { result < length classes.now }
    ensures key { (slice_index_or classes.now result (0, 0)).0 ≡ key }
    ensures first { (k : ℕ) → k < result → (slice_index_or classes.now k (0, 0)).0 ≢ key }
{
    for i in 0..classes.len() {
        if classes.key(i) == key {
            return i;
        }
    }
    unreachable!()
}

/// What the point says of the arcs. The numbers of a whole point of a program without limits fit: no arc has more than
/// there are ballots.
fn flow_of(alloc: Global, start: &Ground, whole: &[u64]) -> Result<Vec<u32>, Memory>
    requires start { IsSomeGround start.now }
    requires point { IsPointWithout start.now whole.now }
    ensures { IfOk result (λ flow. flow.items ≡ arcs_at start.now whole.now) }
{
    let mut flow = Vec::new(alloc);
    for number in &whole[start.classes.len()..] {
        flow.push(*number as u32)?;
    }
    Ok(flow)
}

/// So many new ballots of the goal.
fn new_ballots(
    alloc: Global,
    start: &Ground,
    flow: &[u32],
    total: u32,
) -> Result<BallotList, Memory>
    requires start { IsSomeGround start.now }
    requires flow { IsFlowUnder start.now.goal flow.now total }
    ensures { IfOk result (λ ballots. ballots ≡ ballots_by start.now.goal flow.now total) }
{
    match &start.goal {
        Goal::Root => Ok(List::new(alloc)),
        Goal::Suffix(suffix) => path_ballots(alloc, suffix.as_slice(), flow, total),
        Goal::Pair(x, _) | Goal::Cover(x) => lone_ballots(alloc, *x, total),
    }
}

/// The ballots of the paths of the flow, in order.
fn path_ballots(
    alloc: Global,
    suffix: &[Cand],
    flow: &[u32],
    total: u32,
) -> Result<BallotList, Memory>
    requires flow { IsFlow (length suffix.now) flow.now total }
    requires distinct { AreDistinct suffix.now }
    requires few { length suffix.now ≤ 255 }
    ensures { IfOk result (λ ballots.
        ballots ≡ map (ballot_of suffix.now) (split_of (length suffix.now) flow.now total)) }
{
    let paths = split_flow(alloc, suffix.len() as u8, flow, total)?;
    ballots_of(alloc, paths.as_slice(), suffix)
}

/// The ballots of the paths, in order.
fn ballots_of(alloc: Global, paths: &[Path], suffix: &[Cand]) -> Result<BallotList, Memory>
    requires paths { All (IsPath (length suffix.now)) paths.now }
    requires distinct { AreDistinct suffix.now }
    ensures { IfOk result (λ ballots. ballots ≡ map (ballot_of suffix.now) paths.now) }
{
    let mut ballots = List::new(alloc);
    for path in paths {
        let ballot = path_ballot(alloc, path.as_slice(), suffix)?;
        ballots.push(CandList::from_slice(alloc, ballot.as_slice())?)?;
    }
    Ok(ballots)
}

/// So many ballots that rank the candidate alone.
fn lone_ballots(alloc: Global, x: Cand, total: u32) -> Result<BallotList, Memory>
    ensures { IfOk result (λ ballots. ballots ≡ replicate total (x ∷ [])) }
{
    let mut ballots = List::new(alloc);
    for _made in 0..total {
        ballots.push(CandList::from_slice(alloc, &[x])?)?;
    }
    Ok(ballots)
}

/// Each of the ballots with these numbers gets the new ballot at its place.
fn puts_of(alloc: Global, numbers: &[u32], ballots: &[CandList]) -> Result<Vec<Put>, Memory>
    ensures { IfOk result (λ puts. pairs_of puts.items ≡ zip numbers.now ballots.now) }
{
    let mut puts = Vec::with_capacity(alloc, numbers.len())?;
    for (number, ballot) in numbers.iter().zip(ballots.iter()) {
        puts.push(Put {
            number: *number,
            ballot: ballot.copy()?,
        })?;
    }
    Ok(puts)
}
