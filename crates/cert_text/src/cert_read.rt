// Reading a certificate.
ghost use Rattle.std.specs.Prelude.{◌≡◌, ◌<◌, ◌≤◌, ◌+◌, ◌^◌, OnOk, IfOk, IfErr, Ok};
ghost use Rattle.cert_text.specs.Reading.{ReadsPart, ReadsOn, ReadsCert, fields_at, many_at, text_left};
ghost use Rattle.cert_text.specs.HeadLines.{reported_line, claim_line, goal_line, put_line, put_count};
ghost use Rattle.cert_text.specs.CertReading.{top_at, turn_at, body_at, last_at, cert_at};
ghost use Rattle.cert_text.specs.CertText.{CertText};
ghost use Rattle.cert_text.specs.declared.cert.Cert.{Cert};
ghost use Rattle.cert_text.specs.declared.fault.CertKind.TheVariants.{Memory};

use crate::cert::{Cert, Claim, GoalText};
use crate::fault::{CertFault, CertKind};
use crate::head_line::{read_claim, read_first, read_reported, read_rule, read_size};
use crate::reader::{Reader, at_number, fault};
use crate::tree_read::read_node;
use crate::turn_line::{read_goal, read_put};
use alteration_model::{Put, PutList};
use ballot_form::{MOST_BALLOTS, Outcome, Rule};
use bound_tree::{BoundTree, MOST_DEPTH};
use std::alloc::Global;

/// The certificate that a text is, or the first fault of the text with its line. The text is read once, line by line, and
/// not copied.
pub fn read_cert(alloc: Global, text: &[u8]) -> Result<Cert, CertFault>
    // What is read has this text.
    ensures found { IfOk result (λ cert. CertText text.now cert) }
    // What has this text is read, unless memory runs out.
    ensures only { (cert : Cert) → CertText text.now cert → ReadsCert result (Ok cert) }
    // Which fault it is, and in which line.
    ensures exact { ReadsCert result (cert_at text.now) }
    // Where memory ran out no line is named.
    ensures memory { IfErr result (λ f. f.kind ≡ Memory → f.line ≡ 0) }
{
    read_all(alloc, text)
}

/// Reads all lines.
fn read_all(alloc: Global, text: &[u8]) -> Result<Cert, CertFault>
    ensures { ReadsPart (λ x. x) result (cert_at text.now) }
{
    let mut reader = Reader {
        rest: text,
        number: 1,
    };
    let (rule, (c, ballots)) = read_top(&mut reader)?;
    let reported = next_reported(alloc, rule, c, &mut reader)?;
    let claim = next_claim(&mut reader)?;
    let (goal, puts) = read_body(alloc, c, claim, &mut reader)?;
    let tree = read_last(alloc, &mut reader)?;
    Ok(Cert {
        rule,
        c,
        ballots,
        reported,
        claim,
        goal,
        puts,
        tree,
    })
}

/// The three lines at the top: the first, the rule, and the numbers of candidates and of ballots.
#[tactic(auto, unfolding(crate::specs::CertReading::top_at))]
fn read_top(reader: &mut Reader<'_>) -> Result<(Rule, (u8, u32)), CertFault>
    requires { reader.old.number ≡ 1 }
    ensures top { ReadsOn result (text_left reader.new) (top_at (text_left reader.old)) }
    ensures number { OnOk result (reader.new.number ≡ 4) }
{
    let line = reader.line()?;
    at_number(1, read_first(line))?;
    let line = reader.line()?;
    let rule = at_number(2, read_rule(line))?;
    let line = reader.line()?;
    let sizes = at_number(3, read_size(line))?;
    Ok((rule, sizes))
}

/// The next line, which tells the claim.
fn next_claim(reader: &mut Reader<'_>) -> Result<Claim, CertFault>
    requires { reader.old.number + 1 < 2 ^ 32 }
    ensures claim { ReadsOn result (text_left reader.new) (fields_at claim_line (text_left reader.old)) }
    ensures number { OnOk result (reader.new.number ≡ reader.old.number + 1) }
    ensures within { IfOk result (λ x. put_count x ≤ MOST_BALLOTS) }
{
    let number = reader.number;
    let line = reader.line()?;
    at_number(number, read_claim(line))
}

/// The tree, with which the text ends.
#[tactic(auto, unfolding(crate::specs::CertReading::last_at))]
fn read_last(alloc: Global, reader: &mut Reader<'_>) -> Result<BoundTree, CertFault>
    requires { reader.old.number < 2 ^ 21 }
    ensures { ReadsPart (λ x. x) result (last_at (text_left reader.old)) }
{
    let tree = read_node(alloc, MOST_DEPTH, reader.number, reader)?;
    if !reader.rest.is_empty() {
        return Err(fault(CertKind::Tail, reader.number));
    }
    Ok(BoundTree::from_tree(alloc, tree))
}

/// The next line, which tells the reported outcome.
fn next_reported(
    alloc: Global,
    rule: Rule,
    c: u8,
    reader: &mut Reader<'_>,
) -> Result<Outcome, CertFault>
    requires { reader.old.number + 1 < 2 ^ 32 }
    ensures reported { ReadsOn result (text_left reader.new) (fields_at (reported_line rule c) (text_left reader.old)) }
    ensures number { OnOk result (reader.new.number ≡ reader.old.number + 1) }
{
    let number = reader.number;
    let line = reader.line()?;
    at_number(number, read_reported(alloc, rule, c, line))
}

/// The goal and the replacements of a claim.
#[tactic(auto, unfolding(crate::specs::CertReading::body_at))]
fn read_body(
    alloc: Global,
    c: u8,
    claim: Claim,
    reader: &mut Reader<'_>,
) -> Result<(Option<GoalText>, PutList), CertFault>
    requires number { reader.old.number ≤ 6 }
    requires few { put_count claim ≤ MOST_BALLOTS }
    ensures body { ReadsOn result (text_left reader.new) (body_at c claim (text_left reader.old)) }
    ensures number { OnOk result (reader.new.number < 2 ^ 21) }
{
    match claim {
        Claim::Fixed => Ok((None, PutList::new(alloc))),
        Claim::Margin(k) => read_turn(alloc, c, k, reader),
        Claim::Bounds { up, .. } => read_turn(alloc, c, up, reader),
    }
}

/// A goal and so many replacements.
#[tactic(auto, unfolding(crate::specs::CertReading::turn_at))]
fn read_turn(
    alloc: Global,
    c: u8,
    count: u32,
    reader: &mut Reader<'_>,
) -> Result<(Option<GoalText>, PutList), CertFault>
    requires number { reader.old.number ≤ 6 }
    requires few { count ≤ MOST_BALLOTS }
    ensures turn { ReadsOn result (text_left reader.new) (turn_at c count (text_left reader.old)) }
    ensures number { OnOk result (reader.new.number < 2 ^ 21) }
{
    let goal = next_goal(alloc, c, reader)?;
    let puts = read_puts(alloc, count, reader)?;
    Ok((Some(goal), puts))
}

/// The next line, which tells the goal.
fn next_goal(alloc: Global, c: u8, reader: &mut Reader<'_>) -> Result<GoalText, CertFault>
    requires { reader.old.number + 1 < 2 ^ 32 }
    ensures goal { ReadsOn result (text_left reader.new) (fields_at (goal_line c) (text_left reader.old)) }
    ensures number { OnOk result (reader.new.number ≡ reader.old.number + 1) }
{
    let number = reader.number;
    let line = reader.line()?;
    at_number(number, read_goal(alloc, c, line))
}

/// So many replacements.
fn read_puts(alloc: Global, count: u32, reader: &mut Reader<'_>) -> Result<PutList, CertFault>
    requires { reader.old.number + count < 2 ^ 32 }
    ensures puts { ReadsOn result (text_left reader.new) (many_at (fields_at put_line) count (text_left reader.old)) }
    ensures number { OnOk result (reader.new.number ≡ reader.old.number + count) }
{
    let mut puts = PutList::new(alloc);
    for _ in 0..count {
        let put = next_put(alloc, reader)?;
        puts.push(put)?;
    }
    Ok(puts)
}

/// The next line, which tells a replacement.
fn next_put(alloc: Global, reader: &mut Reader<'_>) -> Result<Put, CertFault>
    requires { reader.old.number + 1 < 2 ^ 32 }
    ensures put { ReadsOn result (text_left reader.new) (fields_at put_line (text_left reader.old)) }
    ensures number { OnOk result (reader.new.number ≡ reader.old.number + 1) }
{
    let number = reader.number;
    let line = reader.line()?;
    at_number(number, read_put(alloc, line))
}
