// The lines of scores.
ghost use Rattle.std.specs.Prelude.{◌≡◌, ◌++◌, OnOk, length, slice_index};
ghost use Rattle.ballot_form.specs.declared.rule.Rule.TheVariants.{Borda, Plurality};
ghost use Rattle.mov_run.specs.Tally.{AddsCount, scores_text};

use crate::tally::push_winner;
use ballot_form::Roll;
use mov_base::Memory;
use score_count::{borda, plurality, score_winner};
use std::alloc::Global;
use text_lines::written::push_two;

/// Adds the scores under plurality, and the winner.
pub(crate) fn push_plurality(alloc: Global, out: &mut Vec<u8>, roll: &Roll) -> Result<(), Memory>
    ensures { OnOk result (AddsCount Plurality roll.now out.old.items out.new.items) }
{
    let counted = plurality(alloc, roll)?;
    let scores = counted.as_slice();
    let _ = roll.candidates();
    push_scores(out, scores)?;
    push_winner(out, score_winner(scores))
}

/// Adds the scores under Borda, and the winner.
pub(crate) fn push_borda(alloc: Global, out: &mut Vec<u8>, roll: &Roll) -> Result<(), Memory>
    ensures { OnOk result (AddsCount Borda roll.now out.old.items out.new.items) }
{
    let counted = borda(alloc, roll)?;
    let scores = counted.as_slice();
    let _ = roll.candidates();
    push_scores(out, scores)?;
    push_winner(out, score_winner(scores))
}

/// Adds a line for each score.
fn push_scores(out: &mut Vec<u8>, scores: &[u64]) -> Result<(), Memory>
    ensures { OnOk result (out.new.items ≡ out.old.items
        ++ scores_text (length scores.now) (λ x. slice_index scores.now x)) }
{
    for x in 0..scores.len() {
        push_two(out, b"score", x as u64, scores[x])?;
    }
    Ok(())
}
