//! Lines of a certificate that stand in other texts too.
//!
//! Each call adds to the end of a text. Without memory a first part of what it adds may have been added.
ghost use Rattle.std.specs.Prelude.{◌≡◌, ◌++◌, ◌∷◌, codes, decimal, OnOk, OnErr};
ghost use Rattle.text_lines.specs.Words.{line_text};
ghost use Rattle.text_lines.specs.Written.{AddedFirst};
ghost use Rattle.cert_text.specs.CertText.{rule_words, outcome_words, stop_words, claim_words};

use crate::cert::{Claim, Stop};
use ballot_form::{Outcome, Rule};
use mov_base::Memory;
use text_lines::written::{push_list, push_number, push_one};

/// Adds the line of the rule.
pub fn push_rule(out: &mut Vec<u8>, rule: Rule) -> Result<(), Memory>
    ensures line { OnOk result (out.new.items ≡ out.old.items ++ line_text (rule_words rule)) }
    ensures part { OnErr result (AddedFirst out.old.items out.new.items (line_text (rule_words rule))) }
{
    match rule {
        Rule::Plurality => out.extend_from_slice(b"rule plurality\n")?,
        Rule::Borda => out.extend_from_slice(b"rule borda\n")?,
        Rule::Condorcet => out.extend_from_slice(b"rule condorcet\n")?,
        Rule::Irv => out.extend_from_slice(b"rule irv\n")?,
        Rule::Dhondt(seats) => push_one(out, b"rule dhondt", u64::from(seats))?,
    }
    Ok(())
}

/// Adds the line of the reported outcome.
pub fn push_reported(out: &mut Vec<u8>, reported: &Outcome) -> Result<(), Memory>
    ensures line { OnOk result (out.new.items ≡ out.old.items ++ line_text (outcome_words reported.now)) }
    ensures part { OnErr result (AddedFirst out.old.items out.new.items (line_text (outcome_words reported.now))) }
{
    match reported {
        Outcome::Winner(x) => push_one(out, b"reported", u64::from(*x))?,
        Outcome::NoWinner => out.extend_from_slice(b"reported none\n")?,
        Outcome::Seats(seats) => push_list(out, b"reported", seats.as_slice())?,
    }
    Ok(())
}

/// Adds the line of the claim.
pub fn push_claim(out: &mut Vec<u8>, claim: Claim) -> Result<(), Memory>
    ensures line { OnOk result (out.new.items ≡ out.old.items ++ line_text (claim_words claim)) }
    ensures part { OnErr result (AddedFirst out.old.items out.new.items (line_text (claim_words claim))) }
{
    match claim {
        Claim::Margin(k) => push_one(out, b"margin", u64::from(k))?,
        Claim::Fixed => out.extend_from_slice(b"fixed\n")?,
        Claim::Bounds { low, up, stop } => push_bounds(out, low, up, stop)?,
    }
    Ok(())
}

/// Adds the line of two bounds.
fn push_bounds(out: &mut Vec<u8>, low: u32, up: u32, stop: Stop) -> Result<(), Memory>
    ensures line { OnOk result (out.new.items
        ≡ out.old.items ++ line_text (codes "bounds" ∷ decimal low ∷ decimal up ∷ stop_words stop)) }
    ensures part { OnErr result (AddedFirst out.old.items out.new.items
        (line_text (codes "bounds" ∷ decimal low ∷ decimal up ∷ stop_words stop))) }
{
    out.extend_from_slice(b"bounds")?;
    push_number(out, low)?;
    push_number(out, up)?;
    match stop {
        Stop::Budget(nodes) => push_one(out, b" budget", u64::from(nodes))?,
        Stop::Depth => out.extend_from_slice(b" depth\n")?,
    }
    Ok(())
}
