// The summary of a drill.
ghost use Rattle.std.specs.Prelude.{◌≡◌, ◌++◌, ◌||◌, false, ℕ, List, IfOk, OnOk};
ghost use Rattle.ballot_form.specs.Rules.{IsRule, name_of_rule, text_of_name};
ghost use Rattle.cert_text.specs.CertText.{claim_words, seats_words, stop_words};
ghost use Rattle.text_lines.specs.Words.{line_text};
ghost use Rattle.drill_text.specs.Drills as drills;
ghost use Rattle.drill_text.specs.Drills.{IsDrill, IsLineFor, drill_head, drill_poll, drill_words, spaced};

use crate::limits::{DRILL_BALLOTS, DRILL_BUDGET, DRILL_CANDIDATES, DRILL_SEATS};
use ballot_form::{Contest, Rule};
use ballot_make::make;
use cert_text::{Claim, Stop};
use margin_solve::margin;
use mov_base::Memory;
use std::alloc::Global;
use text_lines::written::{push_number, push_one, push_two};

/// The summary of the drill of a seed, and whether some claim in it is a pair of bounds.
pub fn drill_text(alloc: Global, seed: u64) -> Result<(Vec<u8>, bool), Memory>
    ensures { IfOk result (λ drill. IsDrill seed drill.0.items drill.1) }
{
    let contest = make(alloc, seed, DRILL_CANDIDATES, DRILL_BALLOTS)?;
    let mut text = head(alloc, seed)?;
    let plurality = push_margin(alloc, &contest, Rule::Plurality, &mut text)?;
    let borda = push_margin(alloc, &contest, Rule::Borda, &mut text)?;
    let condorcet = push_margin(alloc, &contest, Rule::Condorcet, &mut text)?;
    let seats = push_margin(alloc, &contest, Rule::Dhondt(DRILL_SEATS), &mut text)?;
    let runoff = push_margin(alloc, &contest, Rule::Irv, &mut text)?;
    let stopped = any_of(plurality, borda, condorcet, seats, runoff);
    Ok((text, stopped))
}

/// Whether some of these hold.
fn any_of(a: bool, b: bool, c: bool, d: bool, e: bool) -> bool
    ensures { result ≡ (a || (b || (c || (d || (e || false))))) }
{
    a || b || c || d || e
}

/// The first two lines.
fn head(alloc: Global, seed: u64) -> Result<Vec<u8>, Memory>
    ensures { IfOk result (λ text. text.items ≡ drill_head seed) }
{
    let mut text = Vec::new(alloc);
    push_one(&mut text, b"drill", seed)?;
    push_two(
        &mut text,
        b"size",
        u64::from(DRILL_CANDIDATES),
        u64::from(DRILL_BALLOTS),
    )?;
    Ok(text)
}

/// Adds the line of the margin under a rule, and says whether its claim is a pair of bounds.
fn push_margin(
    alloc: Global,
    contest: &Contest,
    rule: Rule,
    text: &mut Vec<u8>,
) -> Result<bool, Memory>
    requires { IsRule rule }
    ensures { (seed : ℕ) → contest.now.roll ≡ drill_poll seed →
        IfOk result (λ stopped. (line : List ℕ) × IsLineFor seed rule line stopped
        × (text.new.items ≡ text.old.items ++ line)) }
{
    let cert = margin(alloc, contest, rule, DRILL_BUDGET)?;
    push_line(text, rule, cert.claim, cert.tree.nodes())?;
    Ok(is_bounds(cert.claim))
}

/// Adds the line of a rule, a claim and a number of nodes.
fn push_line(text: &mut Vec<u8>, rule: Rule, claim: Claim, nodes: u32) -> Result<(), Memory>
    ensures { OnOk result (text.new.items ≡ text.old.items ++ line_text (drill_words rule claim nodes)) }
{
    push_rule(text, rule)?;
    push_claim(text, claim)?;
    push_one(text, b" nodes", u64::from(nodes))?;
    Ok(())
}

/// Adds the words of a rule.
fn push_rule(text: &mut Vec<u8>, rule: Rule) -> Result<(), Memory>
    ensures { OnOk result (text.new.items ≡ text.old.items ++ (text_of_name (name_of_rule rule) ++ spaced (seats_words rule))) }
{
    match rule {
        Rule::Plurality => text.extend_from_slice(b"plurality")?,
        Rule::Borda => text.extend_from_slice(b"borda")?,
        Rule::Condorcet => text.extend_from_slice(b"condorcet")?,
        Rule::Irv => text.extend_from_slice(b"irv")?,
        Rule::Dhondt(seats) => {
            text.extend_from_slice(b"dhondt")?;
            push_number(text, seats)?;
        }
    }
    Ok(())
}

/// Adds the words of a claim, each behind a space.
fn push_claim(text: &mut Vec<u8>, claim: Claim) -> Result<(), Memory>
    ensures { OnOk result (text.new.items ≡ text.old.items ++ spaced (claim_words claim)) }
{
    match claim {
        Claim::Margin(k) => {
            text.extend_from_slice(b" margin")?;
            push_number(text, k)?;
        }
        Claim::Fixed => text.extend_from_slice(b" fixed")?,
        Claim::Bounds { low, up, stop } => {
            text.extend_from_slice(b" bounds")?;
            push_number(text, low)?;
            push_number(text, up)?;
            push_stop(text, stop)?;
        }
    }
    Ok(())
}

/// Adds the words of a stop, each behind a space.
fn push_stop(text: &mut Vec<u8>, stop: Stop) -> Result<(), Memory>
    ensures { OnOk result (text.new.items ≡ text.old.items ++ spaced (stop_words stop)) }
{
    match stop {
        Stop::Budget(nodes) => {
            text.extend_from_slice(b" budget")?;
            push_number(text, nodes)?;
        }
        Stop::Depth => text.extend_from_slice(b" depth")?,
    }
    Ok(())
}

/// Whether the claim is a pair of bounds.
fn is_bounds(claim: Claim) -> bool
    ensures { result ≡ drills.is_bounds claim }
{
    matches!(claim, Claim::Bounds { .. })
}
