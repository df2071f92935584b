// Contests under a rule, and the goals of one.
ghost use Rattle.std.specs.Prelude.{◌≡◌, ◌↔◌, ◌++◌, ◌==◌, not, nat_lt, ℕ, false, List, [], ◌∷◌, Some, None, if◌then◌else◌, length, map, option_map, Contains, IfOk, IsTrue, OnOk};
ghost use Rattle.std.specs.List.{flat_map, range_with_len};
ghost use Rattle.ballot_form.specs.Alterations.{IsAlteration, after};
ghost use Rattle.ballot_form.specs.Rules.{IsRule};
ghost use Rattle.ballot_form.specs.declared.outcome.Outcome.{Outcome as AnOutcome};
ghost use Rattle.goal_rows.specs.Goals.{AreRoots, Holds, IsComplete, cover_of, is_seated as seated_test, longer_suffixes, root_goals, rows_of};
ghost use Rattle.goal_rows.specs.Suffixes.{cover_rows, suffix_rows, those};
ghost use Rattle.irv_count.specs.Orders.{member};
ghost use Rattle.ballot_form.specs.Ballots.{AreDistinct};
ghost use Rattle.goal_rows.specs.Margins.{Turns};
ghost use Rattle.goal_rows.specs.Elections.{contest};
ghost use Rattle.goal_rows.specs.Races.{IsRace, election_of, seen_by};
ghost use Rattle.signature_class.specs.Classes.{classes_of};
ghost use Rattle.std.specs.Str.{bytes_eq};
ghost use Rattle.goal_rows.specs.declared.goals.Goal.{Goal as AGoal};
ghost use Rattle.goal_rows.specs.declared.goals.Goal.TheVariants.{Cover, Pair, Suffix};

use crate::goals::{Goal, GoalList};
use crate::outcomes::reported;
use crate::parts::Race;
use crate::points::seats_at;
use ballot_form::{Cand, Outcome, Ranking, Roll, Rule};
use mov_base::Memory;
use signature_class::parts::Kinds;
use signature_class::{first_kinds, kinds};
use std::alloc::Global;

/// The contest under the rule: its kinds of ballots, the reported outcome, and the root goals. Where a winner is
/// reported by scores or by pairs, these are the pairs of each other candidate, ascending, with the winner; where
/// Condorcet's rule reports none, the covers of all candidates; under D'Hondt the pairs of each candidate with each
/// other one that has a seat, by the gainer, then the loser; under instant runoff the suffixes of each other candidate
/// than the winner alone.
pub fn race<'a>(alloc: Global, rule: Rule, roll: &'a Roll) -> Result<Race<'a>, Memory>
    requires rule { IsRule rule }
    ensures rule { IfOk result (λ race. race.rule ≡ rule) }
    ensures roll { IfOk result (λ race. race.roll.now ≡ roll.now) }
    ensures roots { IfOk result (λ race. race.roots ≡ root_goals rule roll.now.c race.reported) }
    ensures race { IfOk result IsRace }
    // The outcome turns exactly where all rows of some complete goal hold after the replacements.
    ensures turning { IfOk result (λ race. (changes : List (ℕ × List ℕ)) → IsAlteration roll.now changes →
        Turns rule roll.now changes
        ↔ ((goal : AGoal) × IsComplete (election_of race) goal
        × Holds (election_of race) goal (after roll.now changes).ballots)) }
{
    let kinds = kinds_seen(alloc, rule, roll)?;
    let reported = reported(alloc, rule, roll)?;
    let roots = roots_of(alloc, rule, roll.candidates(), &reported)?;
    Ok(Race {
        rule,
        roll,
        kinds,
        reported,
        roots,
    })
}

/// The contest under the rule, whose root is split into these goals.
pub fn race_with<'a>(
    alloc: Global,
    rule: Rule,
    roll: &'a Roll,
    roots: GoalList,
) -> Result<Race<'a>, Memory>
    requires rule { IsRule rule }
    requires roots { (o : AnOutcome) → AreRoots (contest rule roll.now o roots) }
    ensures rule { IfOk result (λ race. race.rule ≡ rule) }
    ensures roll { IfOk result (λ race. race.roll.now ≡ roll.now) }
    ensures roots { IfOk result (λ race. race.roots ≡ roots) }
    ensures race { IfOk result IsRace }
{
    let kinds = kinds_seen(alloc, rule, roll)?;
    let reported = reported(alloc, rule, roll)?;
    let _candidates = roll.candidates();
    Ok(Race {
        rule,
        roll,
        kinds,
        reported,
        roots,
    })
}

/// The kinds of the ballots as far as the rule looks at them.
fn kinds_seen<'a>(alloc: Global, rule: Rule, roll: &'a Roll) -> Result<Kinds<'a>, Memory>
    ensures { IfOk result (λ kinds. kinds ≡ classes_of bytes_eq (map (seen_by rule) roll.now.ballots)) }
{
    match rule {
        Rule::Plurality | Rule::Dhondt(_) => first_kinds(alloc, roll),
        Rule::Borda => kinds(alloc, roll),
        Rule::Condorcet => kinds(alloc, roll),
        Rule::Irv => kinds(alloc, roll),
    }
}

/// The root goals of the rule with the reported outcome.
fn roots_of(alloc: Global, rule: Rule, c: u8, reported: &Outcome) -> Result<GoalList, Memory>
    ensures { IfOk result (λ roots. roots ≡ root_goals rule c reported.now) }
{
    match (rule, reported) {
        (Rule::Plurality | Rule::Borda | Rule::Condorcet, Outcome::Winner(x)) => {
            others(alloc, c, *x)
        }
        (Rule::Condorcet, Outcome::NoWinner) => covers(alloc, c),
        (Rule::Dhondt(_), Outcome::Seats(shares)) => seated(alloc, c, shares.as_slice()),
        (Rule::Irv, Outcome::Winner(x)) => last_ones(alloc, c, *x),
        _ => Ok(GoalList::new(alloc)),
    }
}

/// The pairs of each other candidate with this one.
fn others(alloc: Global, c: u8, x: Cand) -> Result<GoalList, Memory>
    ensures { IfOk result (λ roots. roots ≡ map (λ j. Pair j x) (those c (λ j. not (j == x)))) }
{
    let mut roots = GoalList::new(alloc);
    for j in 0..c {
        if j != x {
            roots.push(Goal::Pair(j, x))?;
        }
    }
    Ok(roots)
}

/// The covers of all candidates.
fn covers(alloc: Global, c: u8) -> Result<GoalList, Memory>
    ensures { IfOk result (λ roots. roots ≡ map Cover (range_with_len 0 c)) }
{
    let mut roots = GoalList::new(alloc);
    for x in 0..c {
        roots.push(Goal::Cover(x))?;
    }
    Ok(roots)
}

/// The suffixes of each other candidate than this one alone.
fn last_ones(alloc: Global, c: u8, x: Cand) -> Result<GoalList, Memory>
    ensures { IfOk result (λ roots. roots ≡ map (λ y. Suffix (y ∷ [])) (those c (λ y. not (y == x)))) }
{
    let mut roots = GoalList::new(alloc);
    for y in 0..c {
        if y != x {
            roots.push(Goal::Suffix(alone(alloc, y)?))?;
        }
    }
    Ok(roots)
}

/// The ranking of one candidate alone.
pub(crate) fn alone(alloc: Global, x: Cand) -> Result<Ranking, Memory>
    ensures { IfOk result (λ ranking. ranking ≡ x ∷ []) }
{
    let mut ranking = Ranking::new(alloc);
    ranking.push(x)?;
    Ok(ranking)
}

/// The pairs of each candidate with each other one that has a seat.
fn seated(alloc: Global, c: u8, shares: &[u16]) -> Result<GoalList, Memory>
    ensures { IfOk result (λ roots.
        roots ≡ flat_map (λ g. map (λ l. Pair g l) (those c (seated_test shares.now g))) (range_with_len 0 c)) }
{
    let mut roots = GoalList::new(alloc);
    for g in 0..c {
        add_seated(&mut roots, c, g, shares)?;
    }
    Ok(roots)
}

/// Adds the pairs of this candidate with each other one that has a seat.
fn add_seated(roots: &mut GoalList, c: u8, g: Cand, shares: &[u16]) -> Result<(), Memory>
    ensures { OnOk result (roots.new ≡ roots.old ++ map (λ l. Pair g l) (those c (seated_test shares.now g))) }
{
    for l in 0..c {
        if is_seated(g, l, shares) {
            roots.push(Goal::Pair(g, l))?;
        }
    }
    Ok(())
}

/// Whether l is another candidate than g and has a seat.
fn is_seated(g: Cand, l: Cand, shares: &[u16]) -> bool
    ensures { result ≡ seated_test shares.now g l }
{
    l != g && seats_at(shares, l) > 0
}
