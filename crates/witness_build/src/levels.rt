// How many of the largest gains bring a pair level.
ghost use Rattle.std.specs.Prelude.{◌≡◌, ◌<◌, ◌≤◌, ◌+◌, ◌*◌, ℕ, List, IfOk, length, slice_index};
ghost use Rattle.mov_base.specs.Sums.{add_up};
ghost use Rattle.goal_rows.specs.Elections.{Election};
ghost use Rattle.goal_rows.specs.Races.{IsGroundIn, IsSomeGround};
ghost use Rattle.witness_build.specs.Levels.{AreCounts, AreEnough, IsLevelFor, IsLevelUnder, below_zero, deficit_under, greatest_under, of_key};
ghost use Rattle.witness_build.specs.Witnesses.{IsPair};

use ballot_form::MOST_BALLOTS;
use goal_rows::parts::Ground;
use mov_base::Memory;
use signature_class::Classes;
use std::alloc::Global;

/// How many replacements bring a pair level: all ballots whose gain is greater than `gain`, and `equal` of those whose
/// gain is that, which are `count` together.
#[derive(Clone, Copy, Drop)]
pub(crate) struct Level {
    pub gain: u64,
    pub equal: u32,
    pub count: u32,
}

/// The level of a pair. The gains are gone through from the greatest that a ballot can have.
pub(crate) fn level_of(alloc: Global, start: &Ground) -> Result<Level, Memory>
    requires start { IsSomeGround start.now }
    requires pair { IsPair start.now.goal }
    ensures { IfOk result (IsLevelUnder start.now) }
{
    let end = greatest_gain(start) as usize;
    let counts = counts_by_key(alloc, &start.classes, end)?;
    Ok(level_at(counts.as_slice(), behind(start)))
}

/// The greatest gain that a ballot can have.
pub(crate) fn greatest_gain(start: &Ground) -> u64
    requires start { IsSomeGround start.now }
    requires pair { IsPair start.now.goal }
    ensures value { (e : Election) → IsGroundIn e start.now → result ≡ greatest_under e start.now.goal }
    ensures some { 1024 ≤ result }
    ensures few { result ≤ 2048 }
{
    start.lone.unsigned_abs() + 1024
}

/// By how much the gainer is behind.
fn behind(start: &Ground) -> u64
    requires pair { IsPair start.now.goal }
    ensures { (e : Election) → IsGroundIn e start.now → result ≡ deficit_under e start.now.goal }
{
    match start.sums.as_slice().first() {
        Some(sum) => missing(*sum),
        None => 0,
    }
}

/// How far a sum is below zero.
fn missing(sum: i64) -> u64
    ensures { result ≡ below_zero sum }
{
    if sum < 0 { sum.unsigned_abs() } else { 0 }
}

/// How many ballots there are of each key below the end.
fn counts_by_key(alloc: Global, classes: &Classes, end: usize) -> Result<Vec<u32>, Memory>
    requires few { add_up (λ c. c.1) classes.now ≤ MOST_BALLOTS }
    ensures size { IfOk result (λ counts. length counts.items ≡ end) }
    ensures each { IfOk result (λ counts. (k : ℕ) → k < end →
        slice_index counts.items k ≡ add_up (of_key k) classes.now) }
{
    let mut counts = vec![in alloc; 0u32; end]?;
    for i in 0..classes.len() {
        let key = classes.key(i) as usize;
        if key < counts.len() {
            counts[key] += classes.count(i);
        }
    }
    Ok(counts)
}

/// The level of gains of which there are so many each, from the greatest gain down to 1.
fn level_at(counts: &[u32], deficit: u64) -> Level
    requires gains { (gains : List ℕ) × AreEnough deficit gains counts.now }
    requires some { 1 ≤ length counts.now }
    requires few { length counts.now ≤ 2048 }
    ensures { (gains : List ℕ) → AreCounts gains counts.now → IsLevelFor deficit gains result }
{
    let mut lacking = deficit;
    let mut count = 0;
    for key in 0..counts.len() {
        let gain = (counts.len() - key) as u64;
        let many = counts[key];
        let brought = gain * u64::from(many);
        if lacking <= brought {
            let equal = lacking.div_ceil(gain) as u32;
            return Level {
                gain,
                equal,
                count: count + equal,
            };
        }
        lacking -= brought;
        count += many;
    }
    unreachable!()
}
