// Writing a certificate.
ghost use Rattle.std.specs.Prelude.{◌≡◌, ◌++◌, ◌∷◌, [], map, decimal, OnOk, IfOk};
ghost use Rattle.text_lines.specs.Words.{line_text};
ghost use Rattle.cert_text.specs.CertText.{put_words, goal_words, puts_text, cert_text, IsPrintable, CertText};

use crate::cert::{Cert, GoalText};
use crate::tree_write::push_tree;
use crate::written::{push_claim, push_reported, push_rule};
use alteration_model::Put;
use mov_base::Memory;
use std::alloc::Global;
use text_lines::written::{push_list, push_number, push_numbers, push_one, push_two};

/// The text of a certificate that is within the limits of the grammar.
#[tactic(auto, using(bound_tree::proofs::Laws::size_some))]
pub fn print_cert(alloc: Global, cert: &Cert) -> Result<Vec<u8>, Memory>
    requires printable { IsPrintable cert.now }
    ensures text { IfOk result (λ bytes. CertText bytes.items cert.now) }
{
    let mut out = Vec::new(alloc);
    out.extend_from_slice(b"movcert 1\n")?;
    push_rule(&mut out, cert.rule)?;
    push_two(
        &mut out,
        b"size",
        u64::from(cert.c),
        u64::from(cert.ballots),
    )?;
    push_reported(&mut out, &cert.reported)?;
    push_claim(&mut out, cert.claim)?;
    if let Some(goal) = &cert.goal {
        push_goal(&mut out, goal)?;
    }
    push_puts(&mut out, cert.puts.as_slice())?;
    push_tree(&mut out, cert.tree.at(0))?;
    Ok(out)
}

/// Adds the line of the goal.
#[tactic(auto, using(crate::proofs::Writing::order_line))]
fn push_goal(out: &mut Vec<u8>, goal: &GoalText) -> Result<(), Memory>
    ensures { OnOk result (out.new.items ≡ out.old.items ++ line_text (goal_words goal.now)) }
{
    match goal {
        GoalText::Order(order) => push_list(out, b"goal order", order.as_slice()),
        GoalText::Pair(gainer, loser) => push_two(
            out,
            b"goal pair",
            u64::from(*gainer),
            u64::from(*loser),
        ),
        GoalText::Cover(x) => push_one(out, b"goal cover", u64::from(*x)),
    }
}

/// Adds the lines of the replacements.
fn push_puts(out: &mut Vec<u8>, puts: &[Put]) -> Result<(), Memory>
    ensures { OnOk result (out.new.items ≡ out.old.items ++ puts_text puts.now) }
{
    for put in puts {
        push_put(out, put)?;
    }
    Ok(())
}

/// Adds the line of a replacement.
fn push_put(out: &mut Vec<u8>, put: &Put) -> Result<(), Memory>
    ensures { OnOk result (out.new.items ≡ out.old.items ++ line_text (put_words put.now)) }
{
    out.extend_from_slice(b"put")?;
    push_number(out, put.number)?;
    push_numbers(out, put.ballot.as_slice())?;
    out.push(b'\n')?;
    Ok(())
}
