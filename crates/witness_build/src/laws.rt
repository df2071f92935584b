// What follows from the definitions.
ghost use Rattle.std.specs.Prelude.{ℕ, List, Contains, length, ◌≡◌, ◌≤◌};
ghost use Rattle.ballot_form.specs.Alterations.{IsAlteration, after};
ghost use Rattle.goal_rows.specs.Elections.{Election};
ghost use Rattle.goal_rows.specs.Goals.{Holds, IsElection};
ghost use Rattle.goal_rows.specs.declared.goals.Goal.{Goal as AGoal};
ghost use Rattle.goal_rows.specs.declared.goals.Goal.TheVariants.{Pair};
ghost use Rattle.witness_build.specs.Starts.{IsStart, IsStartNumber};
ghost use Rattle.witness_build.specs.Witnesses.{IsMetBy, IsStartWitness};

/// No alteration of fewer replacements than the cheapest of the root's pairs meets any root pair, whatever its new
/// ballots are.
pub fn no_shorter_alteration_meets_a_root_pair()
    ensures { (e : Election) (goal : AGoal) (cheapest changes : List (ℕ × List ℕ)) (g l : ℕ) →
        IsElection e → IsStartWitness e goal cheapest → IsAlteration e.poll changes → Contains e.roots (Pair g l) →
        Holds e (Pair g l) (after e.poll changes).ballots → length cheapest ≤ length changes }
{}

/// A start witness has as many replacements as the start number of the election, and there is one start number at most.
pub fn a_start_witness_has_the_start_number()
    ensures length { (e : Election) (goal : AGoal) (changes : List (ℕ × List ℕ)) → IsElection e →
        IsStart e goal changes → IsMetBy e goal changes → IsStartNumber e (length changes) }
    ensures one { (e : Election) (k other : ℕ) → IsStartNumber e k → IsStartNumber e other → k ≡ other }
{}
