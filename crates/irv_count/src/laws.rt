// What holds of the orders by themselves.
ghost use Rattle.std.specs.Prelude.{◌≡◌, ℕ, List, Option};
ghost use Rattle.ballot_form.specs.Ballots.{Poll};
ghost use Rattle.irv_count.specs.Orders.{IsOrderBy};

/// A choice at the ties leaves one order.
pub fn an_order_by_a_choice_is_one()
    ensures { (against : Option ℕ) (p : Poll) (order other : List ℕ) → IsOrderBy against p order → IsOrderBy against p other → order ≡ other }
{}
