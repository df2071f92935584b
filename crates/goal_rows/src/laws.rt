// What follows from the definitions.
ghost use Rattle.std.specs.Prelude.{◌≡◌, ◌≢◌, ◌↔◌, ◌+◌, ◌≤◌, ℕ, List, drop, length, map};
ghost use Rattle.mov_base.specs.Sums.{add_up};
ghost use Rattle.ballot_form.specs.Alterations.{IsAlteration, after};
ghost use Rattle.ballot_form.specs.Ballots.{IsPoll, IsValidBallot, Poll};
ghost use Rattle.ballot_form.specs.Scores.{plurality_points};
ghost use Rattle.ballot_form.specs.declared.outcome.Outcome.{Outcome as AnOutcome};
ghost use Rattle.ballot_form.specs.declared.rule.Rule.{Rule as ARule};
ghost use Rattle.goal_rows.specs.Elections.{Election};
ghost use Rattle.goal_rows.specs.Goals.{AreRoots, Holds, IsComplete, IsElection, IsGoalOf, IsOnlyWay, IsReached, LeadsTo, root_goals};
ghost use Rattle.goal_rows.specs.Margins.{IsMargin, Turns};
ghost use Rattle.ballot_form.specs.declared.outcome.Outcome.TheVariants.{Winner};
ghost use Rattle.ballot_form.specs.declared.rule.Rule.TheVariants.{Plurality};
ghost use Rattle.goal_rows.specs.Outcomes.{IsReported};
ghost use Rattle.goal_rows.specs.Pairs.{IsLevel, Reaches, deficit_of, gain_of};
ghost use Rattle.goal_rows.specs.SeatGains.{IsSeatGain};
ghost use Rattle.goal_rows.specs.declared.goals.Goal.{Goal as AGoal};
ghost use Rattle.goal_rows.specs.declared.goals.Goal.TheVariants.{Root, Suffix};
ghost use Rattle.irv_count.specs.Orders.{IsLegalOrder, IsOrder};
ghost use Rattle.dhondt_seats.specs.Seats.{IsAllocation, seats_in_all};

/// There is one reported outcome at most.
pub fn a_reported_outcome_is_one()
    ensures { (rule : ARule) (p : Poll) (o other : AnOutcome) →
        IsReported rule p o → IsReported rule p other → o ≡ other }
{}

/// There is one margin at most.
pub fn a_margin_is_one_number()
    ensures { (rule : ARule) (p : Poll) (k other : ℕ) → IsMargin rule p k → IsMargin rule p other → k ≡ other }
{}

/// Under plurality the outcome turns exactly where the score of some other candidate reaches that of the reported one.
pub fn plurality_turns_where_a_challenger_is_level()
    ensures { (p : Poll) (x : ℕ) (changes : List (ℕ × List ℕ)) → IsReported Plurality p (Winner x) →
        Turns Plurality p changes ↔ ((j : ℕ) × IsLevel plurality_points (after p changes) x j) }
{}

/// Where an alteration brings a gainer level with a loser, the largest gains of as many ballots make up what the gainer
/// was behind. A ballot may count any number for each of the two, if no valid ballot counts for the gainer more than
/// `top` beyond what it counts for the loser.
pub fn replacements_bring_at_most_the_largest_gains()
    ensures { (top : ℕ) (plus minus : List ℕ → ℕ) (p : Poll) (changes : List (ℕ × List ℕ)) →
        ((ballot : List ℕ) → IsValidBallot p.c ballot → plus ballot ≤ top + minus ballot) → IsAlteration p changes →
        add_up minus (after p changes).ballots ≤ add_up plus (after p changes).ballots →
        Reaches (deficit_of plus minus p.ballots) (map (gain_of top plus minus) p.ballots) (length changes) }
{}

/// Another allocation of seats than a given one is admitted exactly where the next quotient of some party reaches the
/// last one of another party that has a seat.
pub fn other_seats_are_admitted_where_a_party_gains()
    ensures { (votes shares : List ℕ) (s : ℕ) →
        1 ≤ length votes → length shares ≡ length votes → seats_in_all shares ≡ s →
        ((other : List ℕ) × (other ≢ shares) × IsAllocation votes s other) ↔ ((g l : ℕ) × IsSeatGain votes shares g l) }
{}

/// The outcome turns exactly where the rows of some complete goal hold after the replacements: for every rule and every
/// alteration.
pub fn the_outcome_turns_where_a_goal_holds()
    ensures { (e : Election) (changes : List (ℕ × List ℕ)) → IsElection e →
        e.roots ≡ root_goals e.rule e.poll.c e.reported → IsAlteration e.poll changes →
        Turns e.rule e.poll changes
        ↔ ((goal : AGoal) × IsComplete e goal × Holds e goal (after e.poll changes).ballots) }
{}

/// An order of all candidates is legal exactly where the rows of its suffix hold, and then those of each shorter suffix
/// of it hold too.
pub fn a_legal_order_keeps_the_rows_of_its_suffixes()
    ensures whole { (e : Election) (p : Poll) (order : List ℕ) → IsPoll p → IsOrder p.c order →
        IsLegalOrder p order ↔ Holds e (Suffix order) p.ballots }
    ensures shorter { (e : Election) (p : Poll) (order : List ℕ) (i : ℕ) → IsPoll p → IsLegalOrder p order →
        Holds e (Suffix (drop i order)) p.ballots }
{}

/// The root goals of a contest with its reported outcome are goals that an election may have below the root.
pub fn the_root_goals_are_roots()
    ensures { (e : Election) → IsPoll e.poll → IsReported e.rule e.poll e.reported →
        e.roots ≡ root_goals e.rule e.poll.c e.reported → AreRoots e }
{}

/// A complete goal is reached from the root through covers in just one way.
pub fn a_complete_goal_is_reached_in_one_way()
    ensures { (e : Election) (goal : AGoal) → AreRoots e → IsComplete e goal →
        (way : List ℕ) × IsOnlyWay e Root way goal }
{}

/// Where a complete goal holds, every goal on the way to it from the root holds too.
pub fn goals_on_the_way_hold()
    ensures { (e : Election) (between goal : AGoal) (before behind : List ℕ) (ballots : List (List ℕ)) →
        IsComplete e goal →
        LeadsTo e Root before between → LeadsTo e between behind goal → Holds e goal ballots → Holds e between ballots }
{}

/// The goals that are reached are the root, those that it is split into, and under instant runoff the suffixes of
/// distinct candidates that end in one of them.
pub fn a_reached_goal_is_the_root_or_below_a_root_goal()
    ensures { (e : Election) (goal : AGoal) → AreRoots e → IsReached e goal ↔ IsGoalOf e goal }
{}
