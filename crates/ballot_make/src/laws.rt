// What follows from the definitions.
ghost use Rattle.std.specs.Prelude.{◌≡◌, ◌≤◌, ℕ, All, length, take};
ghost use Rattle.ballot_form.specs.Ballots.{IsValidBallot};
ghost use Rattle.ballot_make.specs.Made.{poll_made};

/// A seed gives as many ballots as are asked for, each of them valid, and fewer are the first of more.
pub fn a_seed_gives_valid_ballots()
    ensures number { (seed c n : ℕ) → length (poll_made seed c n).ballots ≡ n }
    ensures valid { (seed c n : ℕ) → All (IsValidBallot c) (poll_made seed c n).ballots }
    ensures first { (seed c n m : ℕ) → n ≤ m → take n (poll_made seed c m).ballots ≡ (poll_made seed c n).ballots }
{}
