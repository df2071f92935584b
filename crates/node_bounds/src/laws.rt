// Laws of cuts and ceilings.
ghost use Rattle.std.specs.Prelude.{◌≡◌, ◌↔◌, ℕ, ◌+◌, ◌*◌, ◌≤◌, ◌≤ℤ◌, ◌*ℤ◌, List, [], ◌∷◌, ℤ, pos, length, map};
ghost use Rattle.row_program.specs.Points.{IsLeastCost, IsPoint};
ghost use Rattle.row_program.specs.declared.Limit.{Limit as ALimit};
ghost use Rattle.row_program.specs.declared.program.Program.{Program as AProgram};
ghost use Rattle.dual_theory.specs.Multipliers.{BoundsCost, RulesOut};
ghost use Rattle.goal_rows.specs.Cells.{IsCell, cell_values};
ghost use Rattle.goal_rows.specs.Elections.{Election, Node};
ghost use Rattle.goal_rows.specs.Goals.{IsKid, rows_of};
ghost use Rattle.goal_rows.specs.Nodes.{AreLimits, kept_of, node_of, with_limit, without_limits};
ghost use Rattle.goal_rows.specs.Programs.{IsPointOf, point_cost_of};
ghost use Rattle.goal_rows.specs.Races.{IsGroundIn};
ghost use Rattle.goal_rows.specs.declared.goals.Goal.{Goal as AGoal};
ghost use Rattle.goal_rows.specs.declared.goals.Goal.TheVariants.{Pair};
ghost use Rattle.goal_rows.specs.declared.parts.Ground.{Ground as AGround};
ghost use Rattle.dual_bound.specs.CutTest.{Cuts, IsBound};
ghost use Rattle.node_bounds.specs.Ceilings.{IsCeiling, IsProgramOf};
ghost use Rattle.node_bounds.specs.Inherited.{inherited_by_half, inherited_by_kid};

/// No multipliers cut a node beyond its ceiling.
pub fn a_cut_is_at_most_the_ceiling()
    ensures { (e : Election) (start : AGround) (limits : List ALimit) (ls : List ℕ) (t v : ℕ) →
        IsGroundIn e start → AreLimits e (node_of start limits) →
        length ls ≡ length start.sums + length limits → t ≤ length e.poll.ballots + 1 →
        Cuts e (node_of start limits) ls t → IsCeiling e (node_of start limits) v → t ≤ v }
{}

/// The multipliers of the solved program of a node cut it up to its ceiling: the least cost, rounded up; where there is
/// no point, one more than there are ballots.
pub fn solved_multipliers_cut_up_to_the_ceiling()
    ensures best { (e : Election) (start : AGround) (limits : List ALimit) (program : AProgram)
        (ls : List ℕ) (num den : ℤ) (v : ℕ) →
        IsGroundIn e start → AreLimits e (node_of start limits) → IsProgramOf start limits program →
        IsLeastCost program num den → BoundsCost program ls num den → length ls ≡ program.kept →
        num ≤ℤ (pos v *ℤ den) → ((u : ℕ) → num ≤ℤ (pos u *ℤ den) → v ≤ u) →
        IsCeiling e (node_of start limits) v × Cuts e (node_of start limits) ls v }
    ensures never { (e : Election) (start : AGround) (limits : List ALimit) (program : AProgram) (ls : List ℕ) →
        IsGroundIn e start → AreLimits e (node_of start limits) → IsProgramOf start limits program →
        ((whole : List ℕ) (den : ℕ) → IsPoint program whole den → ⊥) → RulesOut program ls → length ls ≡ program.kept →
        IsCeiling e (node_of start limits) (length e.poll.ballots + 1)
        × Cuts e (node_of start limits) ls (length e.poll.ballots + 1) }
{}

/// The bound of a pair whose one row has the multiplier 1 is the pair's ceiling.
pub fn a_pairs_bound_is_its_ceiling()
    ensures { (e : Election) (start : AGround) (g l t : ℕ) → IsGroundIn e start → start.goal ≡ Pair g l →
        IsBound e (node_of start []) (1 ∷ []) t → IsCeiling e (node_of start []) t }
{}

/// Multipliers cut a goal that another one is split into, with zeros for its new rows, exactly as far as the other; and
/// a node with one limit more, with a zero for that, exactly as far as the node.
pub fn zeros_change_no_cut()
    ensures kid { (e : Election) (goal : AGoal) (place : ℕ) (kid : AGoal) (ls : List ℕ) (t : ℕ) →
        IsKid e goal place kid →
        Cuts e (without_limits kid) (inherited_by_kid e goal kid ls) t ↔ Cuts e (without_limits goal) ls t }
    ensures half { (e : Election) (node : Node) (limit : ALimit) (ls : List ℕ) (t : ℕ) →
        length ls ≡ length (kept_of e node) →
        Cuts e (with_limit node limit) (inherited_by_half ls) t ↔ Cuts e node ls t }
{}

/// What a node is split into has no lower ceiling than the number to which multipliers cut the node.
pub fn no_ceiling_is_below_a_cut_above_it()
    ensures kid { (e : Election) (goal : AGoal) (place : ℕ) (start : AGround) (ls : List ℕ) (t v : ℕ) →
        IsGroundIn e start → IsKid e goal place start.goal → length ls ≡ length (rows_of e goal) →
        t ≤ length e.poll.ballots + 1 → Cuts e (without_limits goal) ls t → IsCeiling e (without_limits start.goal) v →
        t ≤ v }
    ensures half { (e : Election) (start : AGround) (limits : List ALimit) (limit : ALimit) (ls : List ℕ) (t v : ℕ) →
        IsGroundIn e start → AreLimits e (with_limit (node_of start limits) limit) →
        length ls ≡ length start.sums + length limits → t ≤ length e.poll.ballots + 1 →
        Cuts e (node_of start limits) ls t → IsCeiling e (with_limit (node_of start limits) limit) v → t ≤ v }
{}

/// A node has one ceiling at most, and that is at most one more than there are ballots.
pub fn a_ceiling_is_one_number()
    ensures one { (e : Election) (node : Node) (t other : ℕ) →
        IsCeiling e node t → IsCeiling e node other → t ≡ other }
    ensures within { (e : Election) (start : AGround) (limits : List ALimit) (t : ℕ) →
        IsGroundIn e start → IsCeiling e (node_of start limits) t → t ≤ length e.poll.ballots + 1 }
{}

/// Multipliers that cut a node at its ceiling have the ceiling as their bound.
pub fn a_cut_at_the_ceiling_is_the_bound()
    ensures { (e : Election) (start : AGround) (limits : List ALimit) (ls : List ℕ) (t : ℕ) →
        IsGroundIn e start → AreLimits e (node_of start limits) → length ls ≡ length start.sums + length limits →
        IsCeiling e (node_of start limits) t → Cuts e (node_of start limits) ls t →
        IsBound e (node_of start limits) ls t }
{}

/// A cell has one point at most: the values that its limits leave its variables. Numbers over a denominator that meet
/// the rows of its program are these values times the denominator, and then the values themselves meet the rows.
pub fn a_cell_has_one_point()
    ensures values { (e : Election) (start : AGround) (limits : List ALimit) (whole : List ℕ) (den : ℕ) →
        IsGroundIn e start → IsCell start limits → IsPointOf start limits whole den →
        whole ≡ map (λ value. value * den) (cell_values start limits) }
    ensures met { (e : Election) (start : AGround) (limits : List ALimit) (whole : List ℕ) (den : ℕ) →
        IsGroundIn e start → IsCell start limits → IsPointOf start limits whole den →
        IsPointOf start limits (cell_values start limits) 1 }
{}

/// The ceiling of a cell is what its values cost, where these meet the rows of its program, and else one more than
/// there are ballots.
pub fn a_cells_ceiling()
    ensures met { (e : Election) (start : AGround) (limits : List ALimit) → IsGroundIn e start → IsCell start limits →
        IsPointOf start limits (cell_values start limits) 1 →
        IsCeiling e (node_of start limits) (point_cost_of start (cell_values start limits)) }
    ensures broken { (e : Election) (start : AGround) (limits : List ALimit) →
        IsGroundIn e start → IsCell start limits → (IsPointOf start limits (cell_values start limits) 1 → ⊥) →
        IsCeiling e (node_of start limits) (length e.poll.ballots + 1) }
{}
