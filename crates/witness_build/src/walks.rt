// The walk for a cover.
ghost use Rattle.std.specs.Prelude.{◌≡◌, ◌-◌, ◌*◌, ◌<◌, ◌≤◌, ℕ, IfOk, length, slice_index};
ghost use Rattle.ballot_form.specs.declared.limits.TheConstants.{MOST_BALLOTS, MOST_CANDIDATES};
ghost use Rattle.condorcet_count.specs.Preferences.{ArePrefs, count_in};
ghost use Rattle.witness_build.specs.CoverWalks.{cover_walk};
ghost use Rattle.witness_build.specs.Lacking.{AreNeededAt, AreNeededTo, gain_by};

use crate::chosen::{NumberList, push_numbers};
use ballot_form::{Cand, Roll};
use condorcet_count::Matrix;
use irv_count::stands_in;
use mov_base::{List, Memory};
use signature_class::cover_key;
use std::alloc::Global;

/// The numbers of the ballots that are replaced for the cover of a candidate, ascending. They are found in one pass
/// over the runs of equal ballots.
pub(crate) fn walk(
    alloc: Global,
    roll: &Roll,
    matrix: &Matrix,
    x: Cand,
) -> Result<NumberList, Memory>
    requires prefs { ArePrefs roll.now matrix.now }
    requires stands { x < roll.now.c }
    ensures { IfOk result (λ numbers. numbers ≡ cover_walk roll.now x) }
{
    let mut lacking = lacking_against(alloc, matrix, x)?;
    let mut numbers = Vec::new(alloc);
    for run in roll.runs() {
        let key = cover_key(run.row, x);
        let count = needed(lacking.as_slice(), key, x).min(run.count);
        bring_closer(lacking.as_mut_slice(), key, x, count);
        push_numbers(&mut numbers, run.first, count)?;
    }
    Ok(List::from_vec(numbers))
}

/// By how many ballots each candidate is ahead of `x`.
fn lacking_against(alloc: Global, matrix: &Matrix, x: Cand) -> Result<Vec<u32>, Memory>
    requires { x < matrix.now.c }
    ensures size { IfOk result (λ lacking. length lacking.items ≡ matrix.now.c) }
    ensures each { IfOk result (λ lacking. (j : ℕ) → j < matrix.now.c →
        slice_index lacking.items j ≡ count_in matrix.now j x - count_in matrix.now x j) }
{
    let mut lacking = Vec::with_capacity(alloc, usize::from(matrix.candidates()))?;
    for j in 0..matrix.candidates() {
        lacking.push(matrix.pref(j, x).saturating_sub(matrix.pref(x, j)))?;
    }
    Ok(lacking)
}

/// How many ballots with this key are to be replaced until no more of them brings `x` closer to anyone it lacks
/// against.
fn needed(lacking: &[u32], key: u64, x: Cand) -> u32
    requires { length lacking.now ≤ MOST_CANDIDATES }
    ensures { AreNeededTo (length lacking.now) x result (gain_by key x) (λ j. slice_index lacking.now j) }
{
    let mut most = 0;
    for j in 0..lacking.len() as u8 {
        most = needed_against(lacking[usize::from(j)], key, x, j).max(most);
    }
    most
}

/// How many are to be replaced until no more of them brings `x` closer to `j`.
fn needed_against(lacking: u32, key: u64, x: Cand, j: Cand) -> u32
    ensures { AreNeededAt j x result (gain_by key x j) lacking }
{
    let gain = gain(key, x, j);
    if j == x || gain == 0 {
        0
    } else {
        lacking.div_ceil(gain)
    }
}

/// How much closer `x` comes to `j` where a ballot with this key is replaced by `x` alone.
fn gain(key: u64, x: Cand, j: Cand) -> u32
    ensures value { result ≡ gain_by key x j }
    ensures few { result ≤ 2 }
{
    if stands_in(key, j) {
        2
    } else if stands_in(key, x) {
        0
    } else {
        1
    }
}

/// Takes off what so many replacements of ballots with this key bring.
fn bring_closer(lacking: &mut [u32], key: u64, x: Cand, count: u32)
    requires candidates { length lacking.old ≤ MOST_CANDIDATES }
    requires ballots { count ≤ MOST_BALLOTS }
    ensures { (j : ℕ) → j < length lacking.new →
        slice_index lacking.new j ≡ slice_index lacking.old j - count * gain_by key x j }
{
    for j in 0..lacking.len() as u8 {
        let brought = count * gain(key, x, j);
        lacking[usize::from(j)] = lacking[usize::from(j)].saturating_sub(brought);
    }
}
