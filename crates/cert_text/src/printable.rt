// Whether a certificate is within the limits of the grammar.
ghost use Rattle.std.specs.Prelude.{◌↔◌, ◌≤◌, List, ℕ, All, IsTrue};
ghost use Rattle.ballot_form.specs.Rules.{IsRule};
ghost use Rattle.cert_text.specs.CertText.{SizeFits, OutcomeFits, StopFits, ClaimFits, GoalFits, PutFits, TurnFits, BodyFits, IsPrintable, CertText};

use crate::cert::{Cert, Claim, GoalText, Stop};
use crate::limits::{GREATEST_CANDIDATE, MOST_BUDGET};
use crate::tree_limits::bound_fits;
use alteration_model::Put;
use ballot_form::{Cand, MOST_BALLOTS, MOST_CANDIDATES, MOST_SEATS, Outcome, Rule};

/// Whether some text reads as this certificate. It takes no memory.
pub fn is_printable(cert: &Cert) -> bool
    ensures limits { IsTrue result ↔ IsPrintable cert.now }
    ensures text { IsTrue result ↔ ((text : List ℕ) × CertText text cert.now) }
{
    let rule = rule_fits(cert.rule);
    let sizes = size_fits(cert.c, cert.ballots);
    let reported = outcome_fits(cert.rule, cert.c, &cert.reported);
    let claim = claim_fits(cert.claim);
    let body = body_fits(cert.c, cert.claim, &cert.goal, cert.puts.as_slice());
    let tree = bound_fits(&cert.tree);
    rule && sizes && reported && claim && body && tree
}

/// Whether a rule has a lawful number of seats, where it has one.
fn rule_fits(rule: Rule) -> bool
    ensures { IsTrue result ↔ IsRule rule }
{
    match rule {
        Rule::Dhondt(seats) => 1 <= seats && seats <= MOST_SEATS,
        _ => true,
    }
}

/// Whether the numbers of candidates and of ballots are within their limits.
fn size_fits(c: u8, ballots: u32) -> bool
    ensures { IsTrue result ↔ SizeFits (c, ballots) }
{
    1 <= c && c <= MOST_CANDIDATES && ballots <= MOST_BALLOTS
}

/// Whether the outcome is one of the rule with `c` candidates.
fn outcome_fits(rule: Rule, c: u8, reported: &Outcome) -> bool
    ensures { IsTrue result ↔ OutcomeFits rule c reported.now }
{
    match (rule, reported) {
        (Rule::Dhondt(_), Outcome::Seats(seats)) => {
            seats.len() == usize::from(c) && seats_fit(seats.as_slice())
        }
        (Rule::Dhondt(_), _) => false,
        (Rule::Condorcet, Outcome::NoWinner) => true,
        (_, Outcome::Winner(x)) => candidate_fits(*x),
        _ => false,
    }
}

/// Whether each number of seats is within its limits.
fn seats_fit(seats: &[u16]) -> bool
    ensures { IsTrue result ↔ All (λ s. s ≤ MOST_SEATS) seats.now }
{
    seats.iter().all(|s| *s <= MOST_SEATS)
}

/// Whether a candidate's number is within its limits.
fn candidate_fits(x: Cand) -> bool
    ensures { IsTrue result ↔ (x ≤ GREATEST_CANDIDATE) }
{
    x <= GREATEST_CANDIDATE
}

/// Whether each candidate's number is.
fn candidates_fit(row: &[Cand]) -> bool
    ensures { IsTrue result ↔ All (λ x. x ≤ GREATEST_CANDIDATE) row.now }
{
    row.iter().all(|x| *x <= GREATEST_CANDIDATE)
}

/// Whether the numbers of a claim are within their limits.
fn claim_fits(claim: Claim) -> bool
    ensures { IsTrue result ↔ ClaimFits claim }
{
    match claim {
        Claim::Margin(k) => k <= MOST_BALLOTS,
        Claim::Fixed => true,
        Claim::Bounds { low, up, stop } => {
            let low_fits = low <= MOST_BALLOTS;
            low_fits && up <= MOST_BALLOTS && stop_fits(stop)
        },
    }
}

/// Whether the budget of a stop is within its limits.
fn stop_fits(stop: Stop) -> bool
    ensures { IsTrue result ↔ StopFits stop }
{
    match stop {
        Stop::Budget(nodes) => 1 <= nodes && nodes <= MOST_BUDGET,
        Stop::Depth => true,
    }
}

/// Whether the goal and the replacements are those of such a claim.
fn body_fits(c: u8, claim: Claim, goal: &Option<GoalText>, puts: &[Put]) -> bool
    ensures { IsTrue result ↔ BodyFits c claim goal.now puts.now }
{
    match claim {
        Claim::Fixed => goal.is_none() && puts.is_empty(),
        Claim::Margin(k) => turn_fits(c, k, goal, puts),
        Claim::Bounds { up, .. } => turn_fits(c, up, goal, puts),
    }
}

/// Whether there is a goal, and so many replacements.
fn turn_fits(c: u8, count: u32, goal: &Option<GoalText>, puts: &[Put]) -> bool
    ensures { IsTrue result ↔ TurnFits c count goal.now puts.now }
{
    match goal {
        None => false,
        Some(goal) => goal_fits(c, goal) && puts.len() == count as usize && puts_fit(puts),
    }
}

/// Whether the goal's numbers are within their limits.
fn goal_fits(c: u8, goal: &GoalText) -> bool
    ensures { IsTrue result ↔ GoalFits c goal.now }
{
    match goal {
        GoalText::Order(order) => {
            order.len() == usize::from(c) && candidates_fit(order.as_slice())
        }
        GoalText::Pair(gainer, loser) => candidate_fits(*gainer) && candidate_fits(*loser),
        GoalText::Cover(x) => candidate_fits(*x),
    }
}

/// Whether each replacement's numbers are within their limits.
fn puts_fit(puts: &[Put]) -> bool
    ensures { IsTrue result ↔ All PutFits puts.now }
{
    puts.iter().all(|put| put_fits(put))
}

/// Whether the numbers of a replacement are.
fn put_fits(put: &Put) -> bool
    ensures { IsTrue result ↔ PutFits put.now }
{
    put.number <= MOST_BALLOTS && candidates_fit(put.ballot.as_slice())
}
