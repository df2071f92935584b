// The margin.
ghost use Rattle.std.specs.Prelude.{◌≡◌, ◌≤◌, IfOk};
ghost use Rattle.ballot_form.specs.Rules.{IsRule};
ghost use Rattle.cert_text.specs.CertText.{IsPrintable};
ghost use Rattle.cert_text.specs.declared.limits.TheConstants.{MOST_BUDGET};
ghost use Rattle.margin_solve.specs.Certificates.{IsCertOf};
ghost use Rattle.margin_solve.specs.Made.{upper_by};

use crate::certs::cert_of;
use ballot_form::{Contest, Rule};
use cert_text::{Cert, MOST_BUDGET};
use goal_rows::race;
use mov_base::Memory;
use std::alloc::Global;
use suffix_search::deepen;
use witness_build::{Witness, start_witness};

/// The certificate of a contest under a rule, from a search whose tree has at most `budget` nodes: from 1 to
/// `MOST_BUDGET`. It claims the margin, or that nothing turns the outcome, or, only where the next step would pass the
/// budget or the greatest depth, two bounds on the margin. Where pairs decide, the budget `1 + c * c` is enough for `c`
/// candidates.
pub fn margin(alloc: Global, contest: &Contest, rule: Rule, budget: u32) -> Result<Cert, Memory>
    requires lawful { IsRule rule }
    requires some { 1 ≤ budget }
    requires most { budget ≤ MOST_BUDGET }
    ensures found { IfOk result (IsCertOf rule budget contest.now.roll) }
    ensures printable { IfOk result IsPrintable }
{
    let race = race(alloc, rule, &contest.roll)?;
    let start = start_witness(alloc, &race)?;
    let found = deepen(alloc, &race, upper_of(&start), budget)?;
    cert_of(alloc, &race, start, budget, found)
}

/// How many replacements are known to turn the outcome.
fn upper_of(start: &Option<Witness>) -> Option<u32>
    ensures { result ≡ upper_by start.now }
{
    match start {
        Some(witness) => Some(witness.changes.len()),
        None => None,
    }
}
