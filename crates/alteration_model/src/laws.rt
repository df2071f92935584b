// What follows from the definitions.
ghost use Rattle.std.specs.Prelude.{◌≡◌, ◌↔◌, ◌≤◌, ℕ, List, None, Option, length};
ghost use Rattle.ballot_form.specs.Alterations.{IsAlteration};
ghost use Rattle.ballot_form.specs.Ballots.{Poll};
ghost use Rattle.alteration_model.specs.Faults.{IsFirstFault, pairs_of};
ghost use Rattle.alteration_model.specs.declared.faults.AlterFault.{AlterFault as AFault};
ghost use Rattle.alteration_model.specs.declared.puts.Put.{Put as APut};

/// Puts have one first fault, or none.
pub fn a_first_fault_is_one()
    ensures { (p : Poll) (puts : List APut) (fault other : Option AFault) → IsFirstFault p puts fault → IsFirstFault p puts other → fault ≡ other }
{}

/// Puts have no fault exactly where they are an alteration.
pub fn puts_without_fault_are_an_alteration()
    ensures { (p : Poll) (puts : List APut) → IsFirstFault p puts None ↔ IsAlteration p (pairs_of puts) }
{}

/// An alteration has at most as many replacements as there are ballots.
pub fn an_alteration_is_no_longer_than_the_roll()
    ensures { (p : Poll) (changes : List (ℕ × List ℕ)) → IsAlteration p changes → length changes ≤ length p.ballots }
{}
