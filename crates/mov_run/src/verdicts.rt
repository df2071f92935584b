// The text of a verdict, and the statuses of verdicts and claims.
ghost use Rattle.std.specs.Prelude.{◌≡◌, ◌++◌, IfOk, OnOk};
ghost use Rattle.mov_run.specs.Verdicts.{refused_text, valid_text, verdict_text as text_of};
ghost use Rattle.mov_run.specs.Status.{drill_status as status_of_drill, status_after, status_for};

use crate::runs::Status;
use cert_text::written::{push_claim, push_rule};
use cert_text::{Cert, Claim};
use margin_check::{Reason, Verdict};
use mov_base::{List, Memory};
use std::alloc::Global;
use text_lines::written::{push_number, push_one};

/// The status of a run that wrote the verdict whole.
pub(crate) fn verdict_status(verdict: Verdict) -> Status
    ensures { result ≡ status_after verdict }
{
    match verdict {
        Verdict::Valid => Status::Done,
        Verdict::No { .. } => Status::Refused,
    }
}

/// The status of a run that wrote the summary of a drill whole, where some claim in it is bounds, or none is.
pub(crate) fn drill_status(stopped: bool) -> Status
    ensures { result ≡ status_of_drill stopped }
{
    if stopped {
        Status::Bounds
    } else {
        Status::Done
    }
}

/// The status of a run that wrote a certificate of this claim whole.
pub(crate) fn claim_status(claim: Claim) -> Status
    ensures { result ≡ status_for claim }
{
    match claim {
        Claim::Margin(_) | Claim::Fixed => Status::Done,
        Claim::Bounds { .. } => Status::Bounds,
    }
}

/// The text of a verdict on a certificate.
pub(crate) fn verdict_text(alloc: Global, cert: &Cert, verdict: Verdict) -> Result<List<u8>, Memory>
    ensures { IfOk result (λ text. text ≡ text_of cert.now verdict) }
{
    let mut out = Vec::new(alloc);
    match verdict {
        Verdict::Valid => push_valid(&mut out, cert)?,
        Verdict::No { reason, line } => push_refused(&mut out, reason, line)?,
    }
    Ok(List::from_vec(out))
}

/// Adds what is said of a valid certificate: its rule and its claim.
fn push_valid(out: &mut Vec<u8>, cert: &Cert) -> Result<(), Memory>
    ensures { OnOk result (out.new.items ≡ out.old.items ++ valid_text cert.now) }
{
    out.extend_from_slice(b"VALID\n")?;
    push_rule(out, cert.rule)?;
    push_claim(out, cert.claim)
}

/// Adds what is said of a refused certificate: the number and the name of the reason, and the line.
fn push_refused(out: &mut Vec<u8>, reason: Reason, line: u32) -> Result<(), Memory>
    ensures { OnOk result (out.new.items ≡ out.old.items ++ refused_text reason line) }
{
    out.extend_from_slice(b"REFUSED")?;
    push_number(out, u64::from(reason.number()))?;
    out.push(b' ')?;
    out.extend_from_slice(reason.name().as_bytes())?;
    push_one(out, b" line", u64::from(line))
}
