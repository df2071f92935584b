// The reported outcome.
ghost use Rattle.std.specs.Prelude.{◌≤◌, ◌<◌, IfOk};
ghost use Rattle.ballot_form.specs.Rules.{IsRule};
ghost use Rattle.ballot_form.specs.declared.rule.Rule.TheVariants.{Borda, Condorcet, Dhondt, Irv, Plurality};
ghost use Rattle.goal_rows.specs.Outcomes.{Admits, IsReported};

use ballot_form::{Outcome, Roll, Rule};
use condorcet_count::{condorcet_outcome, pairs};
use dhondt_seats::{party_votes, seats};
use irv_count::count_irv;
use mov_base::Memory;
use score_count::{borda, plurality, score_winner};
use std::alloc::Global;

/// The outcome of the rule with its own choice at the ties. Under plurality and Borda it is the lowest-numbered of
/// those with the greatest score; under Condorcet a tied pair goes to the lower number; under D'Hondt the
/// lower-numbered party is served first among equal quotients; under instant runoff the highest-numbered of those with
/// the least count goes out.
pub fn reported(alloc: Global, rule: Rule, roll: &Roll) -> Result<Outcome, Memory>
    requires rule { IsRule rule }
    ensures reported { IfOk result (λ outcome. IsReported rule roll.now outcome) }
    ensures admitted { IfOk result (λ outcome. Admits rule roll.now outcome) }
{
    match rule {
        Rule::Plurality => by_plurality(alloc, roll),
        Rule::Borda => by_borda(alloc, roll),
        Rule::Condorcet => by_pairs(alloc, roll),
        Rule::Dhondt(s) => by_seats(alloc, s, roll),
        Rule::Irv => by_elimination(alloc, roll),
    }
}

/// Who has the greatest score under plurality.
#[tactic(auto, using(crate::proofs::OutcomesReported::plurality_winner, crate::proofs::OutcomesReported::plurality_admitted))]
fn by_plurality(alloc: Global, roll: &Roll) -> Result<Outcome, Memory>
    ensures reported { IfOk result (λ outcome. IsReported Plurality roll.now outcome) }
    ensures admitted { IfOk result (λ outcome. Admits Plurality roll.now outcome) }
{
    let scores = plurality(alloc, roll)?;
    let _ = roll.candidates();
    Ok(Outcome::Winner(score_winner(scores.as_slice())))
}

/// Who has the greatest score under Borda.
#[tactic(auto, using(crate::proofs::OutcomesReported::borda_winner, crate::proofs::OutcomesReported::borda_admitted))]
fn by_borda(alloc: Global, roll: &Roll) -> Result<Outcome, Memory>
    ensures reported { IfOk result (λ outcome. IsReported Borda roll.now outcome) }
    ensures admitted { IfOk result (λ outcome. Admits Borda roll.now outcome) }
{
    let points = borda(alloc, roll)?;
    let _ = roll.candidates();
    Ok(Outcome::Winner(score_winner(points.as_slice())))
}

/// Who is chosen in all pairs.
fn by_pairs(alloc: Global, roll: &Roll) -> Result<Outcome, Memory>
    ensures reported { IfOk result (λ outcome. IsReported Condorcet roll.now outcome) }
    ensures admitted { IfOk result (λ outcome. Admits Condorcet roll.now outcome) }
{
    let matrix = pairs(alloc, roll)?;
    match condorcet_outcome(&matrix) {
        Some(x) => Ok(Outcome::Winner(x)),
        None => Ok(Outcome::NoWinner),
    }
}

/// The seats of each party, of `s` in all.
fn by_seats(alloc: Global, s: u16, roll: &Roll) -> Result<Outcome, Memory>
    requires some { 1 ≤ s }
    requires most { s ≤ 500 }
    ensures reported { IfOk result (λ outcome. IsReported (Dhondt s) roll.now outcome) }
    ensures admitted { IfOk result (λ outcome. Admits (Dhondt s) roll.now outcome) }
{
    let votes = party_votes(alloc, roll)?;
    let _ = roll.candidates();
    Ok(Outcome::Seats(seats(alloc, votes.as_slice(), s)?))
}

/// Who is the last of the reported order of elimination.
#[tactic(auto, using(crate::proofs::OutcomesReported::last_reported, crate::proofs::OutcomesReported::last_admitted))]
fn by_elimination(alloc: Global, roll: &Roll) -> Result<Outcome, Memory>
    ensures reported { IfOk result (λ outcome. IsReported Irv roll.now outcome) }
    ensures admitted { IfOk result (λ outcome. Admits Irv roll.now outcome) }
{
    let order = count_irv(alloc, roll)?;
    let last = usize::from(roll.candidates()) - 1;
    Ok(Outcome::Winner(order.as_slice()[last]))
}
