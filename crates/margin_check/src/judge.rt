// The judgement of a certificate, part by part.
ghost use Rattle.std.specs.Prelude.{◌≡◌, ◌≢◌, ◌+◌, ◌≤◌, ◌↔◌, All, IfOk, IsTrue, length};
ghost use Rattle.ballot_form.specs.declared.limits.TheConstants.{MOST_BALLOTS};
ghost use Rattle.bound_tree.specs.declared.bound.TheConstants.{MOST_NODES};
ghost use Rattle.alteration_model.specs.declared.faults.AlterFault.TheVariants.{Memory};
ghost use Rattle.goal_rows.specs.Nodes.{without_limits};
ghost use Rattle.goal_rows.specs.Races.{IsRace, election_of};
ghost use Rattle.goal_rows.specs.declared.goals.Goal.TheVariants.{Root};
ghost use Rattle.cert_text.specs.CertText.{IsPrintable};
ghost use Rattle.margin_check.specs.Verdicts.{Judges, place_of, tree_line};
ghost use Rattle.margin_check.specs.Visits.{visits};
ghost use Rattle.margin_check.specs.Walks.{EndsAt, FitsBelow, Gives, IsKnown, IsWithin};
ghost use Rattle.margin_check.specs.declared.verdict.Reason.TheVariants as reasons;
ghost use Rattle.margin_check.specs.declared.verdict.Verdict.TheVariants.{No};

use crate::claim::{claim_holds, has_order, has_sizes, level};
use crate::verdict::{Reason, Verdict};
use crate::walk::{Asked, End, walk};
use alteration_model::{AlterFault, apply, check_alteration};
use ballot_form::Roll;
use bound_tree::BoundTree;
use cert_text::{Cert, Claim};
use dual_bound::Scratch;
use goal_rows::parts::Race;
use goal_rows::{Goal, ground, race};
use mov_base::Memory;
use std::alloc::{AllocError, Global};

/// The verdict on the certificate for these ballots: each part is asked after in its order, and the first that fails is
/// the reason.
pub(crate) fn judge(alloc: Global, roll: &Roll, cert: &Cert) -> Result<Verdict, Memory>
    requires printable { IsPrintable cert.now }
    ensures { IfOk result (Judges roll.now cert.now) }
{
    if !has_sizes(roll, cert) {
        return Ok(refused(Reason::HeadDiffers, 3));
    }
    let race = race(alloc, cert.rule, roll)?;
    if !race.reported.equals(&cert.reported) {
        return Ok(refused(Reason::ReportedDiffers, 4));
    }
    let changes = match check_alteration(alloc, roll, cert.puts.as_slice()) {
        Ok(changes) => changes,
        Err(fault) => return bad_alteration(fault),
    };
    let altered = apply(alloc, roll, &changes)?;
    let holds = claim_holds(alloc, &race, &altered, cert.claim, &cert.goal)?;
    if !holds {
        return Ok(refused(Reason::ClaimFails, 6));
    }
    let mut scratch = Scratch::for_classes(alloc, race.kinds.len())?;
    if let End::Stopped(number) = walk_tree(alloc, &race, Asked::Shape, &cert.tree, &mut scratch)? {
        return Ok(refused(Reason::ShapeDiffers, first_line(cert) + number));
    }
    let asked = Asked::Cuts(level(roll.len(), cert.claim));
    if let End::Stopped(number) = walk_tree(alloc, &race, asked, &cert.tree, &mut scratch)? {
        return Ok(refused(Reason::CutFails, first_line(cert) + number));
    }
    if !has_order(cert.claim) {
        return Ok(refused(Reason::NumbersDisagree, 5));
    }
    Ok(Verdict::Valid)
}

/// The refusal of a certificate with this fault of a replacement.
fn bad_alteration(fault: AlterFault) -> Result<Verdict, Memory>
    requires few { place_of fault ≤ MOST_BALLOTS }
    ensures refused { IfOk result (λ verdict. verdict ≡ No reasons.BadAlteration (7 + place_of fault)) }
    ensures memory { IfOk result (λ verdict. fault ≢ Memory) }
{
    match fault {
        AlterFault::NumberRange(place) => Ok(refused(Reason::BadAlteration, 7 + place as u32)),
        AlterFault::NotAscending(place) => Ok(refused(Reason::BadAlteration, 7 + place as u32)),
        AlterFault::BadBallot(place) => Ok(refused(Reason::BadAlteration, 7 + place as u32)),
        AlterFault::Memory => Err(AllocError),
    }
}

/// Walks over the nodes of a whole tree.
#[tactic(auto, using(bound_tree::proofs::Laws::size_some))]
fn walk_tree(
    alloc: Global,
    race: &Race<'_>,
    asked: Asked,
    tree: &BoundTree,
    scratch: &mut Scratch,
) -> Result<End, Memory>
    requires race { IsRace race.now }
    requires fits { FitsBelow 0 tree.now }
    requires known { All (IsKnown (election_of race.now) asked)
        (visits (election_of race.now) (without_limits Root) tree.now) }
    requires room { length race.now.kinds ≤ scratch.old }
    ensures room { scratch.new ≡ scratch.old }
    ensures end { IfOk result (EndsAt (Gives (election_of race.now) asked) 0
        (visits (election_of race.now) (without_limits Root) tree.now)) }
    ensures few { IfOk result (IsWithin MOST_NODES) }
{
    let _ = tree.nodes();
    let start = ground(alloc, race, &Goal::Root)?;
    let mut limits = Vec::new(alloc);
    walk(
        alloc,
        race,
        asked,
        &start,
        &mut limits,
        tree.at(0),
        0,
        scratch,
    )
}

/// The line in which the certificate's tree begins.
fn first_line(cert: &Cert) -> u32
    requires printable { IsPrintable cert.now }
    ensures value { result ≡ tree_line (length cert.now.puts) cert.now.claim }
    ensures few { result ≤ 7 + MOST_BALLOTS }
{
    match cert.claim {
        Claim::Fixed => 6,
        Claim::Margin(_) => 7 + cert.puts.len() as u32,
        Claim::Bounds { .. } => 7 + cert.puts.len() as u32,
    }
}

/// The refusal for this reason, in this line.
fn refused(reason: Reason, line: u32) -> Verdict
    ensures { result ≡ No reason line }
{
    Verdict::No { reason, line }
}
