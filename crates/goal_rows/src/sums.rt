// The values of a goal's rows, from the classes of ballots by their keys.
ghost use Rattle.std.specs.Prelude.{◌≡◌, ◌≤◌, ◌<◌, ◌++◌, ◌-ℤ◌, ℕ, Bool, pos, [], ◌∷◌, IfOk, IfSome, OnOk, slice_index};
ghost use Rattle.mov_base.specs.Sums.{add_up};
ghost use Rattle.ballot_form.specs.declared.limits.TheConstants.{MOST_BALLOTS};
ghost use Rattle.goal_rows.specs.KeyCounts.{counted_by, cover_values as values_of_cover, suffix_values as values_of_suffix};
ghost use Rattle.goal_rows.specs.KeyCounts.{first_bit as first_bit_from, is_held as held_by_key, is_over as over_by_key};
ghost use Rattle.goal_rows.specs.KeyCounts.{round_values};
ghost use Rattle.irv_count.specs.Orders.{stands};
ghost use Rattle.signature_class.specs.declared.limits.TheConstants.{MOST_PLACES};

use crate::parts::SumList;
use ballot_form::Cand;
use irv_count::stands_in;
use mov_base::Memory;
use signature_class::{Classes, MOST_PLACES};
use std::alloc::Global;

/// As many places as a suffix has at most.
const MOST_HELD: usize = 40;

/// The values of the rows of a suffix of m candidates, from the classes of the ballots under it.
pub(crate) fn suffix_values(alloc: Global, classes: &Classes, m: u8) -> Result<SumList, Memory>
    requires few { add_up (λ c. c.1) classes.now ≤ MOST_BALLOTS }
    requires places { m ≤ MOST_PLACES }
    ensures { IfOk result (λ sums. sums ≡ values_of_suffix m classes.now) }
{
    let mut sums = SumList::new(alloc);
    for i in 0..m {
        add_round(&mut sums, classes, m, i)?;
    }
    Ok(sums)
}

/// Adds the values of the rows that compare the candidate at place i with each later one, while those from place i on
/// stand.
fn add_round(sums: &mut SumList, classes: &Classes, m: u8, i: u8) -> Result<(), Memory>
    requires few { add_up (λ c. c.1) classes.now ≤ MOST_BALLOTS }
    requires within { i < m }
    requires places { m ≤ MOST_PLACES }
    ensures { OnOk result (sums.new ≡ sums.old ++ round_values m i classes.now) }
{
    let held = held_counts(classes, i);
    for j in i + 1..m {
        push_lead(sums, held[usize::from(j)], held[usize::from(i)])?;
    }
    Ok(())
}

/// The values of the rows of the cover of `x`, of `c` candidates, from the classes of the ballots under it.
pub(crate) fn cover_values(
    alloc: Global,
    classes: &Classes,
    c: u8,
    x: Cand,
) -> Result<SumList, Memory>
    requires few { add_up (λ k. k.1) classes.now ≤ MOST_BALLOTS }
    ensures { IfOk result (λ sums. sums ≡ values_of_cover c x classes.now) }
{
    let mut sums = SumList::new(alloc);
    for j in 0..c {
        if j != x {
            let under = under_count(classes, j);
            push_lead(&mut sums, over_count(classes, x, j), under)?;
        }
    }
    Ok(sums)
}

/// How many ballots the candidate at each place holds while those from place i on stand. Each class is looked at once.
fn held_counts(classes: &Classes, i: u8) -> [u64; MOST_HELD]
    requires few { add_up (λ c. c.1) classes.now ≤ MOST_BALLOTS }
    ensures value { (j : ℕ) → j < MOST_PLACES → slice_index result j ≡ counted_by (held_by_key i j) classes.now }
    ensures few { (j : ℕ) → slice_index result j ≤ MOST_BALLOTS }
{
    let mut held = [0; MOST_HELD];
    for k in 0..classes.len() {
        match first_bit(classes.key(k), i) {
            Some(j) => held[usize::from(j)] += u64::from(classes.count(k)),
            None => {}
        }
    }
    held
}

/// How many ballots prefer the candidate of the cover to `j`.
fn over_count(classes: &Classes, x: Cand, j: Cand) -> u64
    requires few { add_up (λ c. c.1) classes.now ≤ MOST_BALLOTS }
    ensures value { result ≡ counted_by (over_by_key x j) classes.now }
    ensures few { result ≤ MOST_BALLOTS }
{
    count_where(classes, |key| is_over(key, x, j))
}

/// How many ballots prefer `j`, another one, to the candidate of the cover.
fn under_count(classes: &Classes, j: Cand) -> u64
    requires few { add_up (λ c. c.1) classes.now ≤ MOST_BALLOTS }
    ensures value { result ≡ counted_by (λ key. stands key j) classes.now }
    ensures few { result ≤ MOST_BALLOTS }
{
    count_where(classes, |key| stands_in(key, j))
}

/// Adds how far the first number is above the second one.
fn push_lead(sums: &mut SumList, more: u64, less: u64) -> Result<(), Memory>
    requires few_more { more ≤ MOST_BALLOTS }
    requires few_less { less ≤ MOST_BALLOTS }
    ensures { OnOk result (sums.new ≡ sums.old ++ (pos more -ℤ pos less) ∷ []) }
{
    sums.push(more as i64 - less as i64)
}

/// How many ballots the classes have whose key passes the test.
fn count_where<F: Fn(u64) -> bool>(classes: &Classes, test: F) -> u64
    requires callable { F.IsAlwaysCallable test }
    requires few { add_up (λ c. c.1) classes.now ≤ MOST_BALLOTS }
    ensures value { (passes : ℕ → Bool) → ((key : ℕ) (b : Bool) → F.post test key b → b ≡ passes key) →
        result ≡ counted_by passes classes.now }
    ensures few { result ≤ MOST_BALLOTS }
{
    let mut sum = 0;
    for k in 0..classes.len() {
        if test(classes.key(k)) {
            sum += u64::from(classes.count(k));
        }
    }
    sum
}

/// The first bit of the key that is set, from bit i on.
pub(crate) fn first_bit(key: u64, i: u8) -> Option<u8>
    ensures value { result ≡ first_bit_from i key }
    ensures within { IfSome result (λ k. k < MOST_PLACES) }
{
    for k in i..MOST_PLACES {
        if stands_in(key, k) {
            return Some(k);
        }
    }
    None
}

/// Whether, by its key under the cover of `x`, a ballot prefers `x` to `j`.
pub(crate) fn is_over(key: u64, x: Cand, j: Cand) -> bool
    ensures { result ≡ over_by_key x j key }
{
    stands_in(key, x) && !stands_in(key, j)
}
