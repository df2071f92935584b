// What follows from the definitions.
ghost use Rattle.std.specs.Prelude.{◌≡◌, ℕ, ◌<◌, ◌≤◌, List, length};
ghost use Rattle.ballot_form.specs.Alterations.{IsAlteration};
ghost use Rattle.ballot_form.specs.Ballots.{Poll};
ghost use Rattle.goal_rows.specs.Elections.{Election, Node};
ghost use Rattle.goal_rows.specs.Nodes.{Kept, Meets};
ghost use Rattle.goal_rows.specs.Races.{IsGroundIn};
ghost use Rattle.goal_rows.specs.declared.parts.Ground.{Ground as AGround};
ghost use Rattle.dual_bound.specs.CutTest.{AreGains, Cuts, IsBound};

use goal_rows::MOST_CLASSES;

/// Where multipliers cut a node at `t`, no alteration of fewer than `t` replacements meets it.
pub fn a_cut_is_sound()
    ensures { (e : Election) (node : Node) (ls : List ℕ) (t : ℕ) (changes : List (ℕ × List ℕ)) →
        Cuts e node ls t → IsAlteration e.poll changes → length changes < t → Meets e node changes → ⊥ }
{}

/// Multipliers that cut a node at `t` cut it at each lower number.
pub fn a_cut_holds_below()
    ensures { (e : Election) (node : Node) (ls : List ℕ) (t u : ℕ) → u ≤ t → Cuts e node ls t → Cuts e node ls u }
{}

/// Each ballot has one gain at most.
pub fn gains_are_one_list()
    ensures { (p : Poll) (weighed : List (ℕ × Kept)) (ballots : List (List ℕ)) (gains others : List ℕ) →
        AreGains p weighed ballots gains → AreGains p weighed ballots others → gains ≡ others }
{}

/// There is one greatest number at which multipliers cut a node.
pub fn a_bound_is_one_number()
    ensures { (e : Election) (node : Node) (ls : List ℕ) (t other : ℕ) →
        IsBound e node ls t → IsBound e node ls other → t ≡ other }
{}

/// A ground has at most 4,096 classes.
pub fn a_ground_has_few_classes()
    ensures { (e : Election) (start : AGround) → IsGroundIn e start → length start.classes ≤ MOST_CLASSES }
{}
