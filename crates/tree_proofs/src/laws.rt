// What follows from a proof.
ghost use Rattle.std.specs.Prelude.{ℕ, ◌<◌, List, length};
ghost use Rattle.ballot_form.specs.Alterations.{IsAlteration, after};
ghost use Rattle.bound_tree.specs.Plain.{Plain};
ghost use Rattle.goal_rows.specs.Elections.{Election};
ghost use Rattle.goal_rows.specs.Goals.{AreRoots, Holds, IsComplete};
ghost use Rattle.goal_rows.specs.Nodes.{without_limits};
ghost use Rattle.goal_rows.specs.declared.goals.Goal.{Goal as AGoal};
ghost use Rattle.goal_rows.specs.declared.goals.Goal.TheVariants.{Root as TheRoot};
ghost use Rattle.tree_proofs.specs.Proving.{Proves};

/// Where a tree proves t at the root, no alteration of fewer than t replacements makes a complete goal hold.
pub fn a_proved_tree_rules_out_shorter_alterations()
    ensures { (e : Election) (t : ℕ) (tree : Plain) (goal : AGoal) (changes : List (ℕ × List ℕ)) →
        AreRoots e → Proves e t (without_limits TheRoot) tree → IsAlteration e.poll changes → length changes < t →
        IsComplete e goal → Holds e goal (after e.poll changes).ballots → ⊥ }
{}
