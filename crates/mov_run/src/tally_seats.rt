// The lines of votes and seats.
ghost use Rattle.std.specs.Prelude.{◌≡◌, ◌≤◌, ◌++◌, ◌∷◌, [], OnOk, codes, decimal, length, slice_index};
ghost use Rattle.ballot_form.specs.declared.limits.TheConstants.{MOST_SEATS};
ghost use Rattle.ballot_form.specs.declared.rule.Rule.TheVariants.{Dhondt};
ghost use Rattle.text_lines.specs.Words.{line_text};
ghost use Rattle.mov_run.specs.Tally.{AddsCount, seats_text};

use crate::tally::push_seats;
use ballot_form::Roll;
use dhondt_seats::{party_votes, seats};
use mov_base::Memory;
use std::alloc::Global;
use text_lines::written::push_number;

/// Adds the votes and the seats of each party, of `s` seats in all.
pub(crate) fn push_dhondt(
    alloc: Global,
    out: &mut Vec<u8>,
    roll: &Roll,
    s: u16,
) -> Result<(), Memory>
    requires some { 1 ≤ s }
    requires most { s ≤ MOST_SEATS }
    ensures { OnOk result (AddsCount (Dhondt s) roll.now out.old.items out.new.items) }
{
    let counted = party_votes(alloc, roll)?;
    let votes = counted.as_slice();
    let _ = roll.candidates();
    let served = seats(alloc, votes, s)?;
    let shares = served.as_slice();
    push_shares(out, votes, shares)?;
    push_seats(out, shares)
}

/// Adds a line for each party.
fn push_shares(out: &mut Vec<u8>, votes: &[u64], shares: &[u16]) -> Result<(), Memory>
    requires { length shares.now ≡ length votes.now }
    ensures { OnOk result (out.new.items ≡ out.old.items
        ++ seats_text (length votes.now) (λ a. slice_index votes.now a) (λ a. slice_index shares.now a)) }
{
    for a in 0..votes.len() {
        push_share(out, a as u64, votes[a], shares[a])?;
    }
    Ok(())
}

/// Adds the line of a party.
fn push_share(out: &mut Vec<u8>, party: u64, votes: u64, seats: u16) -> Result<(), Memory>
    ensures { OnOk result (out.new.items ≡ out.old.items
        ++ line_text (codes "votes" ∷ decimal party ∷ decimal votes ∷ codes "seats" ∷ decimal seats ∷ [])) }
{
    out.extend_from_slice(b"votes")?;
    push_number(out, party)?;
    push_number(out, votes)?;
    out.extend_from_slice(b" seats")?;
    push_number(out, u64::from(seats))?;
    out.push(b'\n')?;
    Ok(())
}
