// Certificates made of what was found.
ghost use Rattle.std.specs.Prelude.{◌≡◌, ◌≢◌, ◌≤◌, [], None, Some, IfOk};
ghost use Rattle.alteration_model.specs.Faults.{pairs_of};
ghost use Rattle.bound_tree.specs.Nodes.{height};
ghost use Rattle.bound_tree.specs.declared.bound.TheConstants.{MOST_DEPTH};
ghost use Rattle.cert_text.specs.declared.cert.Claim.TheVariants as claims;
ghost use Rattle.cert_text.specs.declared.limits.TheConstants.{MOST_BUDGET};
ghost use Rattle.goal_rows.specs.Goals.{root_goals};
ghost use Rattle.goal_rows.specs.Races.{IsRace};
ghost use Rattle.goal_rows.specs.declared.goals.Goal.TheVariants.{Root as TheRoot};
ghost use Rattle.margin_check.specs.Validity.{named_goal};
ghost use Rattle.margin_solve.specs.Made.{HasParts, HasTurn, IsBegun, IsMade, upper_by};
ghost use Rattle.margin_solve.specs.Numbers.{AreNarrow};
ghost use Rattle.search_leaves.specs.Found.{IsFound, problem_of};

use crate::numbers::tree_read;
use alteration_model::{Alteration, Put, PutList};
use ballot_form::CandList;
use bound_tree::BoundTree;
use cert_text::{Cert, Claim, GoalText, Stop};
use goal_rows::Goal;
use goal_rows::parts::Race;
use mov_base::Memory;
use std::alloc::Global;
use witness_build::{End, Found, Witness};

/// The certificate of a race, from what is known where the search begins, and what it found with this budget.
pub(crate) fn cert_of(
    alloc: Global,
    race: &Race<'_>,
    start: Option<Witness>,
    budget: u32,
    found: Found,
) -> Result<Cert, Memory>
    requires race { IsRace race.now }
    requires own { race.now.roots ≡ root_goals race.now.rule race.now.roll.now.c race.now.reported }
    requires begun { IsBegun race.now start }
    requires some { 1 ≤ budget }
    requires most { budget ≤ MOST_BUDGET }
    requires found { IsFound (problem_of race.now (upper_by start) budget) found }
    ensures { IfOk result (IsMade race.now budget) }
{
    tree_read(&found.tree);
    match start {
        Some(start) => started_cert(alloc, race, &start, budget, found),
        None => {
            let Found { tree, .. } = found;
            fixed_cert(alloc, race, tree)
        }
    }
}

/// The same where these replacements are known, which turn the outcome.
fn started_cert(
    alloc: Global,
    race: &Race<'_>,
    start: &Witness,
    budget: u32,
    found: Found,
) -> Result<Cert, Memory>
    requires race { IsRace race.now }
    requires own { race.now.roots ≡ root_goals race.now.rule race.now.roll.now.c race.now.reported }
    requires begun { IsBegun race.now (Some start.now) }
    requires some { 1 ≤ budget }
    requires most { budget ≤ MOST_BUDGET }
    requires found { IsFound (problem_of race.now (upper_by (Some start.now)) budget) found }
    requires narrow { AreNarrow found.tree }
    requires shallow { height found.tree ≤ MOST_DEPTH }
    ensures { IfOk result (IsMade race.now budget) }
{
    let Found { tree, low, end } = found;
    let up = start.changes.len();
    match end {
        End::Nothing => unreachable!(),
        End::Met => turned_cert(alloc, race, Claim::Margin(low), start, tree),
        End::AtPoint(witness) => turned_cert(alloc, race, Claim::Margin(low), &witness, tree),
        End::Budget => {
            let stop = Stop::Budget(budget);
            turned_cert(alloc, race, Claim::Bounds { low, up, stop }, start, tree)
        }
        End::Depth => {
            let stop = Stop::Depth;
            turned_cert(alloc, race, Claim::Bounds { low, up, stop }, start, tree)
        }
    }
}

/// The certificate that nothing turns the outcome.
fn fixed_cert(alloc: Global, race: &Race<'_>, tree: BoundTree) -> Result<Cert, Memory>
    ensures parts { IfOk result (HasParts race.now claims.Fixed tree) }
    ensures goal { IfOk result (λ cert. cert.goal ≡ None) }
    ensures puts { IfOk result (λ cert. cert.puts ≡ []) }
{
    Ok(Cert {
        rule: race.rule,
        c: race.roll.candidates(),
        ballots: race.roll.len(),
        reported: race.reported.copy()?,
        claim: Claim::Fixed,
        goal: None,
        puts: PutList::new(alloc),
        tree,
    })
}

/// The certificate with this claim and these replacements.
fn turned_cert(
    alloc: Global,
    race: &Race<'_>,
    claim: Claim,
    witness: &Witness,
    tree: BoundTree,
) -> Result<Cert, Memory>
    requires below { witness.now.goal ≢ TheRoot }
    ensures parts { IfOk result (HasParts race.now claim tree) }
    ensures turn { IfOk result (HasTurn witness.now) }
{
    Ok(Cert {
        rule: race.rule,
        c: race.roll.candidates(),
        ballots: race.roll.len(),
        reported: race.reported.copy()?,
        claim,
        goal: Some(goal_text(alloc, &witness.goal)?),
        puts: puts_of(alloc, &witness.changes)?,
        tree,
    })
}

/// A goal below the root as it is printed.
fn goal_text(alloc: Global, goal: &Goal) -> Result<GoalText, Memory>
    requires below { goal.now ≢ TheRoot }
    ensures { IfOk result (λ text. named_goal (Some text) ≡ Some goal.now) }
{
    match goal {
        Goal::Root => unreachable!(),
        Goal::Suffix(suffix) => Ok(GoalText::Order(CandList::from_slice(
            alloc,
            suffix.as_slice(),
        )?)),
        Goal::Pair(gainer, loser) => Ok(GoalText::Pair(*gainer, *loser)),
        Goal::Cover(x) => Ok(GoalText::Cover(*x)),
    }
}

/// The replacements as they are printed.
fn puts_of(alloc: Global, changes: &Alteration) -> Result<PutList, Memory>
    ensures { IfOk result (λ puts. pairs_of puts ≡ changes.now) }
{
    let mut puts = Vec::with_capacity(alloc, changes.len() as usize)?;
    for i in 0..changes.len() {
        puts.push(Put {
            number: changes.number(i),
            ballot: CandList::from_slice(alloc, changes.ballot(i))?,
        })?;
    }
    Ok(PutList::from_vec(puts))
}
