// What a ballot counts for the gainer of a pair, and for the loser.
ghost use Rattle.std.specs.Prelude.{◌≡◌, ◌≤◌, if◌then◌else◌, slice_index};
ghost use Rattle.ballot_form.specs.Scores.{borda_points, is_first, place_of};
ghost use Rattle.goal_rows.specs.Goals.{gainer_points, loser_points, seats_in};
ghost use Rattle.goal_rows.specs.Races.{election_of};
ghost use Rattle.goal_rows.specs.Suffixes.{prefer_points};

use crate::parts::Race;
use ballot_form::{Cand, Outcome, Rule};

/// What the ballot counts for the gainer of a pair.
pub(crate) fn for_gainer(race: &Race<'_>, gainer: Cand, loser: Cand, row: &[Cand]) -> u64
    ensures value { result ≡ gainer_points (election_of race.now) gainer loser row.now }
    ensures few { result ≤ 65536 }
{
    match race.rule {
        Rule::Plurality => first_points(row, gainer, 1),
        Rule::Borda => place_points(race.roll.candidates(), row, gainer),
        Rule::Condorcet => preference(row, gainer, loser),
        Rule::Dhondt(_) => first_points(row, gainer, seats_of(&race.reported, loser)),
        Rule::Irv => 0,
    }
}

/// What the ballot counts for the loser of a pair.
pub(crate) fn for_loser(race: &Race<'_>, gainer: Cand, loser: Cand, row: &[Cand]) -> u64
    ensures value { result ≡ loser_points (election_of race.now) gainer loser row.now }
    ensures few { result ≤ 65536 }
{
    match race.rule {
        Rule::Plurality => first_points(row, loser, 1),
        Rule::Borda => place_points(race.roll.candidates(), row, loser),
        Rule::Condorcet => preference(row, loser, gainer),
        Rule::Dhondt(_) => first_points(row, loser, seats_of(&race.reported, gainer) + 1),
        Rule::Irv => 0,
    }
}

/// So many points where the candidate is the first on the ballot, and else none.
fn first_points(row: &[Cand], x: Cand, points: u64) -> u64
    ensures { result ≡ (if is_first row.now x then points else 0) }
{
    match row.first() {
        Some(first) if *first == x => points,
        _ => 0,
    }
}

/// The points of the candidate by its place on the ballot, of c candidates; none where it isn't on it.
fn place_points(c: u8, row: &[Cand], x: Cand) -> u64
    ensures value { result ≡ borda_points c row.now x }
    ensures few { result ≤ 255 }
{
    match place(row, x) {
        Some(r) => u64::from(c).saturating_sub(r as u64),
        None => 0,
    }
}

/// One where the ballot ranks the first candidate, and the other one later or not at all.
pub(crate) fn preference(row: &[Cand], x: Cand, y: Cand) -> u64
    ensures value { result ≡ prefer_points x y row.now }
    ensures few { result ≤ 1 }
{
    match (place(row, x), place(row, y)) {
        (Some(r), Some(q)) if r >= q => 0,
        (Some(_), _) => 1,
        (None, _) => 0,
    }
}

/// The place of the candidate on the ballot, from 1.
#[tactic(auto, using(ballot_form::proofs::Places::no_place, crate::proofs::FoundPlaces::found_place))]
fn place(row: &[Cand], x: Cand) -> Option<usize>
    ensures { result ≡ place_of x row.now }
{
    for (i, y) in row.iter().enumerate() {
        if *y == x {
            return Some(i + 1);
        }
    }
    None
}

/// The seats of the candidate in an outcome.
fn seats_of(reported: &Outcome, x: Cand) -> u64
    ensures value { result ≡ seats_in reported.now x }
    ensures few { result ≤ 65535 }
{
    match reported {
        Outcome::Seats(shares) => u64::from(seats_at(shares.as_slice(), x)),
        _ => 0,
    }
}

/// The seats at the place, and none behind the last.
pub(crate) fn seats_at(shares: &[u16], x: Cand) -> u16
    ensures { result ≡ slice_index shares.now x }
{
    match shares.get(usize::from(x)) {
        Some(n) => *n,
        None => 0,
    }
}
