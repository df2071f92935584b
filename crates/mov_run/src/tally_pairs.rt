// The lines of pairs.
ghost use Rattle.std.specs.Prelude.{◌≡◌, ◌<◌, ◌++◌, OnOk};
ghost use Rattle.ballot_form.specs.declared.rule.Rule.TheVariants.{Condorcet};
ghost use Rattle.condorcet_count.specs.Preferences.{count_in};
ghost use Rattle.mov_run.specs.Tally.{AddsCount, pair_text, pairs_of, pairs_text, reported_text, condorcet_outcome_of};

use crate::tally::{push_no_winner, push_winner};
use ballot_form::{Cand, Roll};
use condorcet_count::{Matrix, condorcet_outcome, pairs};
use mov_base::Memory;
use std::alloc::Global;
use text_lines::written::push_number;

/// Adds how many prefer the one to the other of each pair, and who is chosen in all pairs.
pub(crate) fn push_condorcet(alloc: Global, out: &mut Vec<u8>, roll: &Roll) -> Result<(), Memory>
    ensures { OnOk result (AddsCount Condorcet roll.now out.old.items out.new.items) }
{
    let matrix = pairs(alloc, roll)?;
    push_pairs(out, &matrix)?;
    push_outcome(out, condorcet_outcome(&matrix))
}

/// Adds the line of the outcome.
fn push_outcome(out: &mut Vec<u8>, chosen: Option<Cand>) -> Result<(), Memory>
    ensures { OnOk result (out.new.items ≡ out.old.items ++ reported_text (condorcet_outcome_of chosen)) }
{
    match chosen {
        Some(x) => push_winner(out, x),
        None => push_no_winner(out),
    }
}

/// Adds a line for each pair, by the lower-numbered candidate and then by the other.
fn push_pairs(out: &mut Vec<u8>, matrix: &Matrix) -> Result<(), Memory>
    ensures { OnOk result (out.new.items ≡ out.old.items ++ pairs_text matrix.now.c (count_in matrix.now)) }
{
    for x in 0..matrix.candidates() {
        push_pairs_of(out, matrix, x)?;
    }
    Ok(())
}

/// Adds a line for each pair of a candidate with a higher-numbered one.
fn push_pairs_of(out: &mut Vec<u8>, matrix: &Matrix, x: Cand) -> Result<(), Memory>
    requires { x < matrix.now.c }
    ensures { OnOk result (out.new.items ≡ out.old.items ++ pairs_of matrix.now.c (count_in matrix.now) x) }
{
    let c = matrix.candidates();
    for y in x + 1..c {
        push_pair(out, matrix, x, y)?;
    }
    Ok(())
}

/// Adds the line of a pair.
fn push_pair(out: &mut Vec<u8>, matrix: &Matrix, x: Cand, y: Cand) -> Result<(), Memory>
    requires first { x < matrix.now.c }
    requires second { y < matrix.now.c }
    ensures { OnOk result (out.new.items ≡ out.old.items ++ pair_text (count_in matrix.now) x y) }
{
    out.extend_from_slice(b"pair")?;
    push_number(out, u64::from(x))?;
    push_number(out, u64::from(y))?;
    push_number(out, u64::from(matrix.pref(x, y)))?;
    push_number(out, u64::from(matrix.pref(y, x)))?;
    out.push(b'\n')?;
    Ok(())
}
