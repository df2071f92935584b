// What follows from the definitions.
ghost use Rattle.std.specs.Prelude.{◌≡◌, ◌<◌, ℕ, suc, List, None};
ghost use Rattle.row_program.specs.declared.program.Program.{Program as AProgram};
ghost use Rattle.row_program.specs.Forms.{entry, right_side, first_large_of};
ghost use Rattle.row_program.specs.Points.{IsPoint, IsLeastCost, IsLeastPoint};
ghost use Rattle.row_program.specs.Method.{run_of, IsBest, IsNever, IsWide};
ghost use Rattle.dual_theory.specs.Runs.{GoesOn, Rises, NoneTwice, ColumnsPositive};
ghost use Rattle.dual_theory.specs.Measures.{measure};
ghost use Rattle.dual_theory.specs.Ends.{point_whole, point_den, IsWideSize, HasEnd};
ghost use Rattle.dual_theory.specs.Multipliers.{BoundsCost, RulesOut, IsLowest, lowest, multipliers_of};

/// The columns of all nonbasic variables stay lexicographically positive.
pub fn columns_stay_positive()
    ensures { (p : AProgram) → ColumnsPositive p }
{}

/// The values of the cost and of the program's variables rise strictly in the lexicographic order with each pivot.
pub fn values_rise_with_each_pivot()
    ensures { (p : AProgram) → Rises p }
{}

/// No form of a run comes twice, up to the last.
pub fn no_form_comes_twice()
    ensures { (p : AProgram) → NoneTwice p }
{}

/// Between forms without large entries the measure falls.
pub fn the_measure_falls()
    ensures { (p : AProgram) (k : ℕ) → GoesOn (run_of p k) →
        first_large_of (run_of p k).rows ≡ None → first_large_of (run_of p (suc k)).rows ≡ None →
        measure (run_of p (suc k)) < measure (run_of p k) }
{}

/// Every run comes to a large number or to its last form.
pub fn every_run_ends()
    ensures { (p : AProgram) → HasEnd p }
{}

/// Where no basic variable is negative, the first equation tells the least cost.
pub fn the_last_form_has_the_least_cost()
    ensures { (p : AProgram) (k : ℕ) → IsBest (run_of p k) →
        IsLeastCost p (right_side (run_of p k) 0) (entry (run_of p k) 0 0) }
{}

/// Where no basic variable is negative, the values of the form are the least point.
pub fn the_last_form_has_the_least_point()
    ensures { (p : AProgram) (k : ℕ) → IsBest (run_of p k) →
        IsLeastPoint p (point_whole p (run_of p k)) (point_den p (run_of p k)) }
{}

/// There is one least point at most.
pub fn the_least_point_is_one()
    ensures { (p : AProgram) (xs : List ℕ) (d : ℕ) (ys : List ℕ) (e : ℕ) →
        IsLeastPoint p xs d → IsLeastPoint p ys e → (xs ≡ ys) × (d ≡ e) }
{}

/// Where a variable leaves and none can enter, no point meets the rows.
pub fn without_a_candidate_there_is_no_point()
    ensures { (p : AProgram) (k : ℕ) → IsNever (run_of p k) → (whole : List ℕ) (den : ℕ) → IsPoint p whole den → ⊥ }
{}

/// At the end in Best the multipliers from the first equation bound the cost of all points that meet the other rows.
pub fn multipliers_bound_the_cost()
    ensures { (p : AProgram) (k : ℕ) → IsBest (run_of p k) →
        BoundsCost p (multipliers_of p (run_of p k) 0) (right_side (run_of p k) 0) (entry (run_of p k) 0 0) }
{}

/// At the end in Never the multipliers from the negative equation rule out all points that meet the other rows.
pub fn multipliers_rule_out_every_point()
    ensures { (p : AProgram) (k : ℕ) (never : IsNever (run_of p k)) →
        RulesOut p (multipliers_of p (run_of p k) never.0) }
{}

/// Numbers divided by their greatest common divisor have none but 1, or all are 0.
pub fn divided_multipliers_have_no_common_divisor()
    ensures { (xs : List ℕ) → IsLowest (lowest xs) }
{}

/// What names a large number shows that the program is wide, and there is one such number at most.
pub fn the_wide_number_is_one()
    ensures wide { (p : AProgram) (size : ℕ) → IsWideSize p size → IsWide p }
    ensures one { (p : AProgram) (size other : ℕ) → IsWideSize p size → IsWideSize p other → size ≡ other }
{}
