// Votes and seats of small contests and of whole elections, and which seats are an allocation.
use crate::rolls::roll_of;
use ballot_form::{MOST_BALLOTS, MOST_SEATS};
use dhondt_seats::{is_allocation, party_votes, seats};
use std::alloc::Global;
use std::process::Abort;
use std::test::Fail;

/// The numbers that a text writes, with spaces between them.
fn numbers_of(alloc: Global, text: &str) -> Result<Vec<u64>, Fail> {
    let mut made = Vec::new(alloc);
    for word in text.split(' ') {
        if !word.is_empty() {
            made.push(word.parse::<u64>().ok().ok_or("no number")?)?;
        }
    }
    Ok(made)
}

/// The numbers of seats that a text writes.
fn shares_of(alloc: Global, text: &str) -> Result<Vec<u16>, Fail> {
    let mut made = Vec::new(alloc);
    for number in numbers_of(alloc, text)?.iter() {
        made.push(u16::try_from(*number).ok().ok_or("no seats")?)?;
    }
    Ok(made)
}

/// The seats that the votes give.
fn seats_text(alloc: Global, votes: &[u64], s: u16) -> Result<String, Fail> {
    if votes.is_empty() || votes.len() > 255 || s < 1 || s > MOST_SEATS {
        return Err("past the limits".into());
    }
    if !votes.iter().all(|v| *v <= u64::from(MOST_BALLOTS)) {
        return Err("too many votes".into());
    }
    Ok(format!(in alloc; "{:?}", seats(alloc, votes, s)?.as_slice())?)
}

/// Whether the seats are an allocation, where there are as many as parties.
fn admits(votes: &[u64], shares: &[u16], s: u16) -> bool {
    votes.len() == shares.len() && is_allocation(votes, shares, s)
}

/// A line of the elections.
fn gives(rt: &impl Abort, alloc: Global, line: &str) -> Result<(), Fail> {
    let mut fields = line.splitn(3, ';');
    let votes = numbers_of(alloc, fields.next().ok_or("no votes")?)?;
    let s = fields
        .next()
        .ok_or("no number")?
        .trim()
        .parse::<u16>()
        .ok()
        .ok_or("no number")?;
    let text = seats_text(alloc, votes.as_slice(), s)?;
    assert_eq!(rt; text.as_str(), fields.next().ok_or("no seats")?.trim());
    Ok(())
}

/// Votes; how many seats; the seats.
const ELECTIONS: &str = "\
6 3; 3; [2, 1]
340000 280000 160000 60000; 7; [3, 3, 1, 0]
100000 80000 30000 20000; 8; [4, 3, 1, 0]
0 0; 3; [3, 0]
5 5 5; 4; [2, 1, 1]
1 2 2; 1; [0, 1, 0]
9; 500; [500]
1000000 0; 500; [500, 0]
";

/// A line of the allocations.
fn is_told(rt: &impl Abort, alloc: Global, line: &str) -> Result<(), Fail> {
    let mut fields = line.splitn(4, ';');
    let votes = numbers_of(alloc, fields.next().ok_or("no votes")?)?;
    let shares = shares_of(alloc, fields.next().ok_or("no seats")?)?;
    let s = fields
        .next()
        .ok_or("no number")?
        .trim()
        .parse::<u16>()
        .ok()
        .ok_or("no number")?;
    let admitted = admits(votes.as_slice(), shares.as_slice(), s);
    assert_eq!(rt; admitted, fields.next().ok_or("no answer")?.trim() == "yes");
    Ok(())
}

/// Votes; seats; how many there are; whether they are an allocation.
const ALLOCATIONS: &str = "\
6 3; 2 1; 3; yes
6 3; 3 0; 3; no
7 3; 2 1; 3; yes
4 2; 1 1; 2; yes
4 2; 2 0; 2; yes
6 3; 2 1; 4; no
0 0; 0 2; 2; yes
; ; 0; yes
; ; 1; no
18446744073709551615 1; 65535 0; 65535; yes
";

#[test]
fn seats_and_allocations(rt: HostRuntime) -> Result<(), Fail> {
    for line in ELECTIONS.lines() {
        gives(&rt, rt.alloc(), line)?;
    }
    for line in ALLOCATIONS.lines() {
        is_told(&rt, rt.alloc(), line)?;
    }
    let votes = party_votes(rt.alloc(), &roll_of(rt.alloc(), "3: 6 A, 2, 3 CA")?)?;
    assert_eq!(rt; votes.as_slice(), [6, 0, 3].as_slice());
    Ok(())
}
