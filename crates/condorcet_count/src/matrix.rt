// The counts of all pairs.
ghost use Rattle.std.specs.Prelude.{◌≡◌, ◌≢◌, ◌≤◌, ◌<◌, ◌*◌, ◌-◌, ℕ, EachIndex, IfOk, length, slice_index};
ghost use Rattle.condorcet_count.specs.Preferences.{ArePrefs, count_at, count_in};

use crate::ballots::count_ballots;
use ballot_form::{Cand, Roll};
use mov_base::Memory;
use std::alloc::Global;
use std::marker::Model;

/// For each two candidates, how many ballots prefer the one to the other.
#[derive(Debug, Drop)]
pub struct Matrix {
    candidates: u8,
    counts: Vec<u32>,
}

impl Model for Matrix {
    ghost use Rattle.std.specs.Prelude.{◌≡◌, ◌*◌, length};
    ghost use Rattle.condorcet_count.specs.Preferences.{Table};

    ghost Value = { Table };

    ghost view = { λ m. record { c = m.candidates; counts = m.counts.items } };

    ghost invariant = { λ m. length m.counts.items ≡ m.candidates * m.candidates };
}

impl Matrix {
    /// How many candidates the contest has.
    pub fn candidates(&self) -> u8
        ensures { result ≡ self.now.c }
    {
        self.candidates
    }

    /// How many ballots rank `x`, and `y` later or not at all.
    pub fn pref(&self, x: Cand, y: Cand) -> u32
        requires first { x < self.now.c }
        requires second { y < self.now.c }
        ensures { result ≡ count_in self.now x y }
    {
        self.counts[x as usize * self.candidates as usize + y as usize]
    }
}

/// For each two candidates, how many ballots rank the one, and the other one later or not at all.
pub fn pairs(alloc: Global, roll: &Roll) -> Result<Matrix, Memory>
    ensures { IfOk result (λ matrix. ArePrefs roll.now matrix) }
{
    let candidates = roll.candidates();
    let c = candidates as usize;
    let mut counts = vec![in alloc; 0u32; c * c]?;
    count_pairs(roll, counts.as_mut_slice());
    Ok(Matrix { candidates, counts })
}

/// Writes for each two candidates how many ballots prefer the first.
fn count_pairs(roll: &Roll, counts: &mut [u32])
    requires square { length counts.old ≡ roll.now.c * roll.now.c }
    requires none { EachIndex counts.old (λ k. slice_index counts.old k ≡ 0) }
    ensures { ArePrefs roll.now (record { c = roll.now.c; counts = counts.new }) }
{
    count_ballots(roll, counts);
    set_prefs(roll.candidates(), counts);
}

/// Puts in the place of the number of ballots on which a candidate stands behind another one the number of the others that rank
/// it: these prefer it. The number of those that rank it is the one that it has with itself.
fn set_prefs(c: u8, counts: &mut [u32])
    requires square { length counts.old ≡ c * c }
    requires least { (x y : ℕ) → x < c → y < c → count_at c counts.old x y ≤ count_at c counts.old x x }
    ensures { (x y : ℕ) → x < c → y < c → count_at c counts.new x y ≡ count_at c counts.old x x - count_at c counts.old x y }
{
    for x in 0..c {
        set_prefs_of(c, counts, x);
    }
}

/// The same for one candidate.
fn set_prefs_of(c: u8, counts: &mut [u32], x: Cand)
    requires candidate { x < c }
    requires square { length counts.old ≡ c * c }
    requires least { (y : ℕ) → y < c → count_at c counts.old x y ≤ count_at c counts.old x x }
    ensures prefs { (y : ℕ) → y < c → count_at c counts.new x y ≡ count_at c counts.old x x - count_at c counts.old x y }
    ensures others { (z y : ℕ) → z < c → y < c → z ≢ x → count_at c counts.new z y ≡ count_at c counts.old z y }
{
    let start = x as usize * c as usize;
    let ranked = counts[start + x as usize];
    for y in 0..c as usize {
        counts[start + y] = ranked - counts[start + y];
    }
}
