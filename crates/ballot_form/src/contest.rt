// A contest: who stands, and the ballots.
ghost use Rattle.std.specs.Prelude.{◌≡◌, ◌≢◌, All, AllPairs, true, length};
ghost use Rattle.ballot_form.specs.Names.{is_name};

use crate::{Names, Roll};

/// The candidates' names, in the order of their numbers, and the ballots.
#[derive(Debug, Drop)]
pub struct Contest {
    pub names: Names,
    pub roll: Roll,
    pub ghost one_each: { length names ≡ roll.c },
    pub ghost distinct: { AllPairs (λ x y. x ≢ y) names },
    pub ghost admitted: { All (λ name. is_name name ≡ true) names },
}
