// The text of a tally.
ghost use Rattle.std.specs.Prelude.{◌≡◌, ◌++◌, ◌∷◌, [], IfOk, OnOk, codes, decimal};
ghost use Rattle.ballot_csv.specs.BallotFile.{named_poll_of};
ghost use Rattle.ballot_form.specs.Rules.{IsRule};
ghost use Rattle.text_lines.specs.Words.{line_text};
ghost use Rattle.mov_run.specs.Tally.{AddsCount, IsTally, names_text, reported_text};
ghost use Rattle.ballot_form.specs.declared.outcome.Outcome.TheVariants.{NoWinner, Seats, Winner};

use crate::tally_pairs::push_condorcet;
use crate::tally_rounds::push_irv;
use crate::tally_scores::{push_borda, push_plurality};
use crate::tally_seats::push_dhondt;
use ballot_form::{Cand, Contest, Outcome, Roll, Rule, Text};
use cert_text::written::{push_reported, push_rule};
use mov_base::Memory;
use std::alloc::Global;
use text_lines::written::{push_list, push_number, push_two};

/// The text of the tally: the rule, the numbers of candidates and ballots, the names, what the rule counts, and the
/// reported outcome. Each line is ended by a line feed, and its words are cut by single spaces.
pub fn tally_text(alloc: Global, contest: &Contest, rule: Rule) -> Result<Vec<u8>, Memory>
    requires rule { IsRule rule }
    ensures { IfOk result (λ text. IsTally rule (named_poll_of contest.now) text.items) }
{
    let roll = &contest.roll;
    let mut out = Vec::new(alloc);
    push_rule(&mut out, rule)?;
    push_two(
        &mut out,
        b"size",
        u64::from(roll.candidates()),
        u64::from(roll.len()),
    )?;
    push_names(&mut out, contest.names.as_slice())?;
    push_count(alloc, &mut out, roll, rule)?;
    Ok(out)
}

/// Adds the lines of what the rule counts, and of the reported outcome.
fn push_count(alloc: Global, out: &mut Vec<u8>, roll: &Roll, rule: Rule) -> Result<(), Memory>
    requires rule { IsRule rule }
    ensures { OnOk result (AddsCount rule roll.now out.old.items out.new.items) }
{
    match rule {
        Rule::Plurality => push_plurality(alloc, out, roll),
        Rule::Borda => push_borda(alloc, out, roll),
        Rule::Condorcet => push_condorcet(alloc, out, roll),
        Rule::Dhondt(s) => push_dhondt(alloc, out, roll, s),
        Rule::Irv => push_irv(alloc, out, roll),
    }
}

/// Adds a line for each name.
fn push_names(out: &mut Vec<u8>, names: &[Text]) -> Result<(), Memory>
    ensures { OnOk result (out.new.items ≡ out.old.items ++ names_text names.now) }
{
    for x in 0..names.len() {
        push_name(out, x as u64, names[x].as_str())?;
    }
    Ok(())
}

/// Adds the line of a name.
fn push_name(out: &mut Vec<u8>, x: u64, name: &str) -> Result<(), Memory>
    ensures { OnOk result (out.new.items ≡ out.old.items ++ line_text (codes "name" ∷ decimal x ∷ name.now ∷ [])) }
{
    out.extend_from_slice(b"name")?;
    push_number(out, x)?;
    out.push(b' ')?;
    out.extend_from_slice(name.as_bytes())?;
    out.push(b'\n')?;
    Ok(())
}

/// Adds the line of a reported winner.
pub(crate) fn push_winner(out: &mut Vec<u8>, x: Cand) -> Result<(), Memory>
    ensures { OnOk result (out.new.items ≡ out.old.items ++ reported_text (Winner x)) }
{
    push_reported(out, &Outcome::Winner(x))
}

/// Adds the line that says that nobody wins.
pub(crate) fn push_no_winner(out: &mut Vec<u8>) -> Result<(), Memory>
    ensures { OnOk result (out.new.items ≡ out.old.items ++ reported_text NoWinner) }
{
    push_reported(out, &Outcome::NoWinner)
}

/// Adds the line of the reported seats.
pub(crate) fn push_seats(out: &mut Vec<u8>, shares: &[u16]) -> Result<(), Memory>
    ensures { OnOk result (out.new.items ≡ out.old.items ++ reported_text (Seats shares.now)) }
{
    push_list(out, b"reported", shares)
}
