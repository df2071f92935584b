// Programs whose answers were worked out by hand or by a program outside.
use crate::programs::{costs_of, numbers, program, push_rows, row_of};
use lex_dual::{Buffers, SolveFault, Solved, solve, solve_in};
use mov_base::{List, Memory};
use row_program::{Program, Row, RowList};
use std::alloc::Global;
use std::process::Abort;
use std::test::Fail;

/// The numbers, each after a space.
fn spaced(alloc: Global, numbers: &[u64]) -> Result<String, Memory> {
    let mut text = String::new(alloc);
    for number in numbers {
        text.push_str(format!(in alloc; " {number}")?.as_str())?;
    }
    Ok(text)
}

/// What the method answers, as the tables write it, and the multipliers.
fn answer_text(
    alloc: Global,
    answer: Result<Solved, SolveFault>,
) -> Result<(String, Vec<u64>), Fail> {
    match answer {
        Ok(
            Solved::Best {
                value,
                multipliers,
                point,
            },
        ) => {
            let whole = spaced(alloc, point.whole.as_slice())?;
            let text = format!(in alloc;
                "{} {};{} {}",
                value.num,
                value.den,
                whole.as_str(),
                point.den
            )?;
            Ok((text, multipliers.into_vec()))
        }
        Ok(Solved::Never { multipliers }) => Ok((
            String::from_str(alloc, "none")?,
            multipliers.into_vec(),
        )),
        Err(SolveFault::Wide { size }) => Ok((format!(in alloc; "wide {size}")?, Vec::new(alloc))),
        Err(SolveFault::Memory) => Err(Fail::from("no memory")),
    }
}

/// The program of these costs, these kept rows and other rows.
fn program_of(alloc: Global, costs: &str, kept: RowList, other: &str) -> Result<Program, Fail> {
    let count = kept.len();
    let mut rows = kept;
    push_rows(alloc, &mut rows, other)?;
    program(costs_of(alloc, costs)?, rows, count)
}

/// What it answers of the rows of two texts, the first of which are kept, in memory that is lent from line to line.
fn solved_texts(
    alloc: Global,
    buffers: &mut Buffers,
    costs: &str,
    kept: &str,
    other: &str,
) -> Result<(String, Vec<u64>), Fail> {
    let mut rows = List::new(alloc);
    push_rows(alloc, &mut rows, kept)?;
    let program = program_of(alloc, costs, rows, other)?;
    answer_text(alloc, solve_in(alloc, &program, buffers))
}

/// A line of the worked programs: the method finds what it says, with these multipliers.
fn works(rt: &impl Abort, alloc: Global, buffers: &mut Buffers, line: &str) -> Result<(), Fail> {
    let mut fields = line.splitn(5, ';');
    let costs = fields.next().ok_or("no costs")?;
    let kept = fields.next().ok_or("no kept rows")?;
    let other = fields.next().ok_or("no other rows")?;
    let multipliers = fields.next().ok_or("no multipliers")?;
    let (text, found) = solved_texts(alloc, buffers, costs, kept, other)?;
    assert_eq!(rt; text.as_str(), fields.next().ok_or("no answer")?.trim());
    let found = spaced(alloc, found.as_slice())?;
    assert_eq!(rt; found.as_str().trim(), multipliers.trim());
    Ok(())
}

#[test]
fn worked_programs(rt: HostRuntime) -> Result<(), Fail> {
    let mut buffers = Buffers::new(rt.alloc());
    for line in THREE_SMALL_PROGRAMS.lines() {
        works(&rt, rt.alloc(), &mut buffers, line)?;
    }
    for line in NUMBERS_PAST_63_BITS.lines() {
        works(&rt, rt.alloc(), &mut buffers, line)?;
    }
    Ok(())
}

/// Costs; kept rows; other rows; multipliers; least cost; point.
const THREE_SMALL_PROGRAMS: &str = "\
1 0; -1 0 2, 1 10 -2; ; 0 0; 0 1; 0 1 2
1 0; -1 0 2, 1 10 -2, 0 0 -1; ; 1 0 2; none
1 0; -1 0 2, 1 10 -2, -1 0 1; ; 0 1 2; 1 10; 1 10 10
0 0; ; -1 1 1, -2 1 0; ; 0 1; 2 0 1
0; 0 1; -2 1, 1 -1; 0; none
";

/// The same of programs with a form, a common denominator or a number of a point that is wide, and its size.
const NUMBERS_PAST_63_BITS: &str = "\
1 0 0 0; -1 0 2147483647 0 0, 0 0 -1 2147483647 0, 0 0 0 -1 2147483647; ; ; wide 9903520300447984150353281023
0 0 0; -1 2147483647 0 0, -1 0 2147483646 0, -1 0 0 2147483645; ; ; wide 9903520286612926112250986490
0 0 0; -2147483647 1 0 0, -1 0 2147483647 0, -1 0 0 2147483646; ; ; wide 9903520295836298136220860414
";

/// Adds a multiple of the numbers to the sum.
fn add_multiple(sum: &mut [i64], numbers: &[i64], multiplier: u64) -> Result<(), Fail> {
    let times = i64::try_from(multiplier).ok().ok_or("a large multiplier")?;
    for (place, x) in sum.iter_mut().zip(numbers.iter()) {
        *place = place.saturating_add(x.saturating_mul(times));
    }
    Ok(())
}

/// The sum of the multipliers times the rows of a text, over so many variables.
fn weighted(alloc: Global, variables: usize, text: &str, multipliers: &[u64]) -> Result<Row, Fail> {
    let mut sum = vec![in alloc; 0i64; variables.saturating_add(1)]?;
    for (part, multiplier) in text.split(',').zip(multipliers.iter()) {
        let numbers = numbers(alloc, part)?;
        add_multiple(sum.as_mut_slice(), numbers.as_slice(), *multiplier)?;
    }
    row_of(alloc, sum.as_slice())
}

/// What the method answers where the sum of the multipliers times the kept rows stands in place of these.
fn solved_sum(
    alloc: Global,
    costs: &str,
    kept: &str,
    other: &str,
    multipliers: &[u64],
) -> Result<String, Fail> {
    let variables = costs_of(alloc, costs)?.len();
    let mut rows = List::new(alloc);
    rows.push(weighted(alloc, variables, kept, multipliers)?)?;
    let program = program_of(alloc, costs, rows, other)?;
    let (text, _) = answer_text(alloc, solve(alloc, &program))?;
    Ok(text)
}

/// What stands before the first semicolon: the cost, or that there is no point.
fn cost_in(text: &str) -> &str {
    match text.split_once(';') {
        Some((cost, _)) => cost,
        None => text,
    }
}

/// A line of the drawn programs: the method finds what it says, and its multipliers show it: with their sum in place of the
/// kept rows there is the same least cost, or no point.
fn agrees(rt: &impl Abort, alloc: Global, buffers: &mut Buffers, line: &str) -> Result<(), Fail> {
    let mut fields = line.splitn(4, ';');
    let costs = fields.next().ok_or("no costs")?;
    let kept = fields.next().ok_or("no kept rows")?;
    let other = fields.next().ok_or("no other rows")?;
    let expected = fields.next().ok_or("no answer")?;
    let (text, multipliers) = solved_texts(alloc, buffers, costs, kept, other)?;
    assert_eq!(rt; text.as_str(), expected.trim());
    let sum = solved_sum(alloc, costs, kept, other, multipliers.as_slice())?;
    assert_eq!(rt; cost_in(sum.as_str()), cost_in(text.as_str()));
    Ok(())
}

#[test]
fn drawn_programs(rt: HostRuntime) -> Result<(), Fail> {
    let mut buffers = Buffers::new(rt.alloc());
    for line in DRAWN.lines() {
        agrees(&rt, rt.alloc(), &mut buffers, line)?;
    }
    Ok(())
}

/// Made by `tools/least_points.py`, which tries all vertices: costs; kept rows; other rows; least cost; point.
const DRAWN: &str = "\
; ; ; 0 1; 1
1 0; ; ; 0 1; 0 0 1
; 3; ; 0 1; 1
; -1; ; none
1 1; -1 1 1; ; 1 1; 0 1 1
0 0; ; -1 1 1, -2 1 0; 0 1; 2 0 1
1 0 0; -1 0 2 0, -1 0 0 3; 0 1 -1 -1; 5 6; 5 3 2 6
1; -3 2, 3 -2; -3 2; 3 2; 3 2
0; 0 1; -2 1, 1 -1; none
0 0 0; 2 -1 1 2, -2 -2 -1 1; -1 -2 0 0, 0 -2 2 1; none
0 0 1; 2 -1 -1 2, 2 -1 0 1; -1 -2 1 1, 1 -2 1 -2; 0 1; 0 1 0 1
0 0 1; -1 -1 1 2, -1 2 2 1; -1 -2 2 -1, 2 1 0 -1; 0 1; 0 1 0 1
1 0 0; 0 0 2 2, 2 0 2 2; 1 1 0 0, -2 -2 0 -2; none
0 0 0; 0 -1 -2 -2, -2 2 2 0; 2 -2 0 2, -1 -1 -1 0; none
1 1 1; 0 2 1 2, -2 2 -2 2; 0 1 -1 1, 0 1 2 -2; 1 1; 2 0 1 3
0 1 0; 0 2 -2 -1, 1 0 -1 0; 1 -1 -1 0, 2 0 1 -1; 0 1; 0 0 0 1
1 1 1; 1 -2 2 1, 0 2 -2 2; -2 -2 0 1, 2 2 0 -1; 2 1; 0 0 2 1
0 0 0; 1 1 -1 0, -2 2 -1 -1; -2 2 2 -2, -1 2 2 2; 0 1; 1 0 0 1
0 0 1; 2 2 2 -1, -2 0 -1 1; -2 1 -1 -1, -1 2 1 1; 2 1; 4 0 2 1
0 0 0; -2 -2 -2 -2, 1 -1 -1 -1; -2 2 -2 -2, 1 -2 0 1; none
0 1 0; -1 -2 1 -2, 1 -1 -1 -2; -1 -1 -1 -2, -2 2 0 1; none
0 1 1; -1 0 -1 0, -1 -1 2 2; -1 -2 1 1, -1 0 0 -1; none
0 1 1; -1 1 -2 1, -1 0 0 -1; -1 0 -2 0, -1 -1 0 -2; none
1 0 1; -2 0 1 1, 2 0 1 -2; 2 2 -1 -2, -2 -1 -2 1; none
1 0 0; -2 0 0 1, -2 0 1 -1; -2 1 2 -1, 0 -2 -2 1; none
1 0 1; 1 -1 -2 -1, -2 -1 2 2; 0 -1 2 -2, 1 -2 0 -1; none
1 1 1; -1 -2 -2 -2, -2 -1 1 -2; -1 -2 -1 2, -1 1 -1 -2; none
1 1 0; 2 -1 0 -2, -2 0 -1 2; 2 0 0 1, 0 -2 2 1; 0 1; 0 0 1 1
0 1 1; -2 -1 -2 -1, 0 -1 0 -1; 2 -2 -2 -1, -2 -2 -1 1; none
1 1 0; -2 -2 -1 1; 1 -1 0 0, 3 0 -1 0, 0 1 1 -1; none
1 1 0; -4 -2 -1 0; 2 -1 0 0, 2 0 -1 0, 0 1 1 -1; none
1 1 0; 0 -2 1 -2, -3 2 3 3; 2 -1 0 0, 1 0 -1 0, 0 1 1 -1; 2 3; 0 2 1 3
1 1 0; -3 -2 1 2; 3 -1 0 0, 1 0 -1 0, 0 1 1 -1; 1 1; 0 1 1 1
1 1 0; -4 1 2 0; 2 -1 0 0, 2 0 -1 0, 0 1 1 -1; 2 1; 0 2 0 1
1 1 0; -2 0 -1 3; 2 -1 0 0, 2 0 -1 0, 0 1 1 -1; 2 3; 2 0 2 3
1 1 0; -3 2 -2 3; 2 -1 0 0, 1 0 -1 0, 0 1 1 -1; 3 5; 3 0 3 5
1 1 0; -3 -1 2 1, -3 1 2 -1; 1 -1 0 0, 2 0 -1 0, 0 1 1 -1; 3 2; 0 3 0 2
1 1 0; -4 1 2 -2; 3 -1 0 0, 2 0 -1 0, 0 1 1 -1; 2 1; 0 2 0 1
1 1 0; -1 1 -2 -1; 3 -1 0 0, 3 0 -1 0, 0 1 1 -1; 1 1; 1 0 0 1
1 1 0 0 0; -4 -1 2 3 -2 3, -2 3 -1 -2 -1 0; 1 -1 0 0 0 0, 1 0 -1 0 0 0, 0 1 1 -1 -1 0, 0 0 0 1 0 -1; none
1 1 0 0 0; 0 3 2 1 0 0, -2 -2 1 3 -2 -1; 1 -1 0 0 0 0, 1 0 -1 0 0 0, 0 1 1 -1 -1 0, 0 0 0 1 0 -1; 1 2; 0 1 1 0 0 2
1 1 0 0 0; -4 2 3 0 -2 3; 1 -1 0 0 0 0, 2 0 -1 0 0 0, 0 1 1 -1 -1 0, 0 0 0 1 0 -1; 2 3; 0 2 2 0 2 3
1 1 0 0 0; -4 -1 2 2 0 -1; 3 -1 0 0 0 0, 3 0 -1 0 0 0, 0 1 1 -1 -1 0, 0 0 0 1 0 -1; 1 1; 0 1 1 0 0 1
1 1 0 0 0; 0 0 0 -1 -1 1, -4 1 3 2 3 1; 3 -1 0 0 0 0, 3 0 -1 0 0 0, 0 1 1 -1 -1 0, 0 0 0 1 0 -1; 2 3; 0 2 2 0 2 3
1 1 0 0 0; -4 0 0 2 3 -1; 3 -1 0 0 0 0, 2 0 -1 0 0 0, 0 1 1 -1 -1 0, 0 0 0 1 0 -1; 4 3; 0 4 0 4 0 3
1 1 0 0 0; -2 -1 -1 1 0 3, -1 3 2 2 2 0; 2 -1 0 0 0 0, 2 0 -1 0 0 0, 0 1 1 -1 -1 0, 0 0 0 1 0 -1; 2 3; 0 2 2 0 2 3
1 1 0 0 0; -4 3 0 1 2 -2, -3 3 1 1 3 -1; 2 -1 0 0 0 0, 3 0 -1 0 0 0, 0 1 1 -1 -1 0, 0 0 0 1 0 -1; 4 5; 4 0 0 4 0 5
1 1 0 0 0; -2 -1 1 2 2 2, -2 0 2 3 -1 -2; 1 -1 0 0 0 0, 3 0 -1 0 0 0, 0 1 1 -1 -1 0, 0 0 0 1 0 -1; 1 2; 0 2 2 0 1 4
1 1 0 0 0; -3 2 3 3 -2 -2, 0 0 -2 1 2 0; 2 -1 0 0 0 0, 1 0 -1 0 0 0, 0 1 1 -1 -1 0, 0 0 0 1 0 -1; 6 11; 3 3 6 0 0 11
1 1 0 0 0; -1 -1 -2 0 1 -1, -4 -1 1 -2 2 -1; 1 -1 0 0 0 0, 2 0 -1 0 0 0, 0 1 1 -1 -1 0, 0 0 0 1 0 -1; none
1 1 0 0 0; -1 3 1 3 3 -2, -3 -1 2 2 -1 0; 1 -1 0 0 0 0, 1 0 -1 0 0 0, 0 1 1 -1 -1 0, 0 0 0 1 0 -1; 3 4; 0 3 3 0 0 4
1 1 0 0 0; -1 0 3 3 -1 -2, -2 -2 3 3 3 3; 2 -1 0 0 0 0, 2 0 -1 0 0 0, 0 1 1 -1 -1 0, 0 0 0 1 0 -1; 7 30; 0 7 7 0 6 30
1 1 0 0 0; -4 0 -2 2 2 -1; 2 -1 0 0 0 0, 1 0 -1 0 0 0, 0 1 1 -1 -1 0, 0 0 0 1 0 -1; 2 1; 2 0 0 2 0 1
1 1 0 0 0; 0 0 -2 0 2 1; 3 -1 0 0 0 0, 1 0 -1 0 0 0, 0 1 1 -1 -1 0, 0 0 0 1 0 -1; 0 1; 0 0 0 0 0 1
1 1 0 0 0; -4 3 2 3 0 -2; 1 -1 0 0 0 0, 3 0 -1 0 0 0, 0 1 1 -1 -1 0, 0 0 0 1 0 -1; 2 3; 2 0 2 0 0 3
1 1 0 0 0; -1 -1 3 -2 -2 2; 3 -1 0 0 0 0, 2 0 -1 0 0 0, 0 1 1 -1 -1 0, 0 0 0 1 0 -1; 1 3; 0 1 0 0 0 3
1 1 0 0 0; 0 2 -2 -2 -2 -1, -2 2 0 -1 -2 -2; 1 -1 0 0 0 0, 2 0 -1 0 0 0, 0 1 1 -1 -1 0, 0 0 0 1 0 -1; 1 1; 1 0 0 0 0 1
1 1 0 0 0; -1 -2 -2 2 1 0; 1 -1 0 0 0 0, 3 0 -1 0 0 0, 0 1 1 -1 -1 0, 0 0 0 1 0 -1; none
1 1 0 0 0; -4 2 2 3 -1 -1; 3 -1 0 0 0 0, 1 0 -1 0 0 0, 0 1 1 -1 -1 0, 0 0 0 1 0 -1; 4 5; 0 4 4 0 0 5
";
