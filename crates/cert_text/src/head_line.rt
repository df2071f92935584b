// The lines at the head of a certificate.
ghost use Rattle.std.specs.Prelude.{◌≡◌, ◌≤◌, IfOk};
ghost use Rattle.ballot_form.specs.Rules.{name_of_text};
ghost use Rattle.text_lines.specs.Faults.{UnlessMemory};
ghost use Rattle.text_lines.specs.Words.{fields_of, ahead};
ghost use Rattle.cert_text.specs.HeadLines.{first_line, named_rule, rule_line, size_line, winner_or_none_fields, winner_fields, seats_fields, reported_line, stop_fields, bounds_fields, claim_line, put_count};

use crate::cert::{Claim, Stop};
use crate::limits::{GREATEST_CANDIDATE, MOST_BUDGET};
use ballot_form::{MOST_BALLOTS, MOST_CANDIDATES, MOST_SEATS, Outcome, Rule, RuleName, SeatList};
use std::alloc::Global;
use text_lines::parts::Fields;
use text_lines::{
    LineFault, both, fields, is_word, next_is, nothing_more, number, one_number, so_many_numbers,
    two_numbers,
};

/// The first line, which is always the same.
pub(crate) fn read_first(line: &[u8]) -> Result<(), LineFault>
    ensures { result ≡ first_line line.now }
{
    if is_word(line, b"movcert 1") {
        Ok(())
    } else {
        Err(LineFault::BadLine)
    }
}

/// The rule.
pub(crate) fn read_rule(line: &[u8]) -> Result<Rule, LineFault>
    ensures { result ≡ rule_line (fields_of line.now) }
{
    let mut rest = fields(line);
    if !next_is(&mut rest, b"rule") {
        return Err(LineFault::BadLine);
    }
    match rest.next() {
        None => Err(LineFault::BadLine),
        Some(name) => rule_named(name.text, &mut rest),
    }
}

/// The rule with this name, with its seats where it has them.
fn rule_named(name: &[u8], rest: &mut Fields<'_>) -> Result<Rule, LineFault>
    ensures { result ≡ named_rule (name_of_text name.now) (ahead rest.old) }
{
    match RuleName::named(name) {
        None => Err(LineFault::BadLine),
        Some(RuleName::Plurality) => nothing_more(Ok(Rule::Plurality), rest),
        Some(RuleName::Borda) => nothing_more(Ok(Rule::Borda), rest),
        Some(RuleName::Condorcet) => nothing_more(Ok(Rule::Condorcet), rest),
        Some(RuleName::Irv) => nothing_more(Ok(Rule::Irv), rest),
        Some(RuleName::Dhondt) => {
            let seats = one_number(1, u64::from(MOST_SEATS), rest)?;
            Ok(Rule::Dhondt(seats as u16))
        }
    }
}

/// The number of candidates and that of ballots.
pub(crate) fn read_size(line: &[u8]) -> Result<(u8, u32), LineFault>
    ensures { result ≡ size_line (fields_of line.now) }
{
    let mut rest = fields(line);
    if !next_is(&mut rest, b"size") {
        return Err(LineFault::BadLine);
    }
    let (c, ballots) = two_numbers(
        1,
        u64::from(MOST_CANDIDATES),
        0,
        u64::from(MOST_BALLOTS),
        &mut rest,
    )?;
    Ok((c as u8, ballots as u32))
}

/// The reported outcome of a rule with `c` candidates.
pub(crate) fn read_reported(
    alloc: Global,
    rule: Rule,
    c: u8,
    line: &[u8],
) -> Result<Outcome, LineFault>
    ensures { UnlessMemory result (result ≡ reported_line rule c (fields_of line.now)) }
{
    let mut rest = fields(line);
    if !next_is(&mut rest, b"reported") {
        return Err(LineFault::BadLine);
    }
    match rule {
        Rule::Dhondt(_) => read_seats(alloc, c, &mut rest),
        Rule::Condorcet => read_winner_or_none(&mut rest),
        _ => read_winner(&mut rest),
    }
}

/// A number of seats for each of `c` candidates.
fn read_seats(alloc: Global, c: u8, rest: &mut Fields<'_>) -> Result<Outcome, LineFault>
    ensures { UnlessMemory result (result ≡ seats_fields c (ahead rest.old)) }
{
    let most = u64::from(MOST_SEATS);
    let seats = so_many_numbers(SeatList::new(alloc), usize::from(c), 0, most, rest)?;
    Ok(Outcome::Seats(seats))
}

/// A winner, or none.
fn read_winner_or_none(rest: &mut Fields<'_>) -> Result<Outcome, LineFault>
    ensures { result ≡ winner_or_none_fields (ahead rest.old) }
{
    match rest.next() {
        None => Err(LineFault::BadLine),
        Some(field) => {
            if is_word(field.text, b"none") {
                return nothing_more(Ok(Outcome::NoWinner), rest);
            }
            let x = nothing_more(number(0, u64::from(GREATEST_CANDIDATE), field.text), rest)?;
            Ok(Outcome::Winner(x as u8))
        }
    }
}

/// A winner.
fn read_winner(rest: &mut Fields<'_>) -> Result<Outcome, LineFault>
    ensures { result ≡ winner_fields (ahead rest.old) }
{
    let x = one_number(0, u64::from(GREATEST_CANDIDATE), rest)?;
    Ok(Outcome::Winner(x as u8))
}

/// What is claimed.
pub(crate) fn read_claim(line: &[u8]) -> Result<Claim, LineFault>
    ensures is { result ≡ claim_line (fields_of line.now) }
    ensures within { IfOk result (λ x. put_count x ≤ MOST_BALLOTS) }
{
    let mut rest = fields(line);
    match rest.next() {
        None => Err(LineFault::BadLine),
        Some(word) => {
            if is_word(word.text, b"margin") {
                let k = one_number(0, u64::from(MOST_BALLOTS), &mut rest)?;
                Ok(Claim::Margin(k as u32))
            } else if is_word(word.text, b"fixed") {
                nothing_more(Ok(Claim::Fixed), &mut rest)
            } else if is_word(word.text, b"bounds") {
                read_bounds(&mut rest)
            } else {
                Err(LineFault::BadLine)
            }
        }
    }
}

/// Two bounds, and why the search stopped.
fn read_bounds(rest: &mut Fields<'_>) -> Result<Claim, LineFault>
    ensures is { result ≡ bounds_fields (ahead rest.old) }
    ensures within { IfOk result (λ x. put_count x ≤ MOST_BALLOTS) }
{
    match rest.next() {
        None => Err(LineFault::BadLine),
        Some(low) => match rest.next() {
            None => Err(LineFault::BadLine),
            Some(up) => {
                let most = u64::from(MOST_BALLOTS);
                let low = number(0, most, low.text);
                let up = number(0, most, up.text);
                let (low, (up, stop)) = both(low, both(up, read_stop(rest)))?;
                Ok(Claim::Bounds {
                    low: low as u32,
                    up: up as u32,
                    stop,
                })
            }
        },
    }
}

/// Why the search stopped.
fn read_stop(rest: &mut Fields<'_>) -> Result<Stop, LineFault>
    ensures { result ≡ stop_fields (ahead rest.old) }
{
    match rest.next() {
        None => Err(LineFault::BadLine),
        Some(word) => {
            if is_word(word.text, b"budget") {
                let nodes = one_number(1, u64::from(MOST_BUDGET), rest)?;
                Ok(Stop::Budget(nodes as u32))
            } else if is_word(word.text, b"depth") {
                nothing_more(Ok(Stop::Depth), rest)
            } else {
                Err(LineFault::BadLine)
            }
        }
    }
}
