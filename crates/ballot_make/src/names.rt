// The names of made candidates.
ghost use Rattle.std.specs.Prelude.{◌≡◌, IfOk};
ghost use Rattle.ballot_make.specs.Made.{name_of, names_made};

use ballot_form::{Cand, Names, Text};
use mov_base::Memory;
use std::alloc::Global;

/// The names `C0`, `C1` and so on.
#[tactic(auto, using(crate::proofs::MadeNames::names_more))]
pub fn make_names(alloc: Global, c: u8) -> Result<Names, Memory>
    ensures { IfOk result (λ names. names ≡ names_made c) }
{
    let mut names = Names::new(alloc);
    for x in 0..c {
        names.push(make_name(alloc, x)?)?;
    }
    Ok(names)
}

/// The name of a candidate.
fn make_name(alloc: Global, x: Cand) -> Result<Text, Memory>
    ensures { IfOk result (λ name. name ≡ name_of x) }
{
    Text::of(alloc, format!(in alloc; "C{x}")?.as_str())
}
