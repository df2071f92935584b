// All settlings of the pairs.
use super::digits::digit;
use ballot_form::Cand;
use condorcet_count::Matrix;

/// Whether some settling has this outcome. There are at most 4 candidates.
pub(crate) fn some_settling(matrix: &Matrix, outcome: Option<Cand>) -> bool {
    for number in 0..settling_count(matrix.candidates()) {
        if is_settling(matrix, number) && is_outcome(matrix.candidates(), number, outcome) {
            return true;
        }
    }
    false
}

/// How many numbers have all the digits that settlings have.
fn settling_count(c: u8) -> u32 {
    if c <= 4 {
        1 << (u32::from(c) * u32::from(c))
    } else {
        0
    }
}

/// Whether the settling with the number is one.
fn is_settling(matrix: &Matrix, number: u32) -> bool {
    for x in 0..matrix.candidates() {
        for y in 0..matrix.candidates() {
            if x < y && !is_lawful(matrix, number, x, y) {
                return false;
            }
        }
    }
    true
}

/// Whether the choice between the two isn't the one that fewer ballots prefer.
fn is_lawful(matrix: &Matrix, number: u32, x: Cand, y: Cand) -> bool {
    if x >= matrix.candidates() || y >= matrix.candidates() {
        return false;
    }
    let (ours, theirs) = (matrix.pref(x, y), matrix.pref(y, x));
    if chooses_first(matrix.candidates(), number, x, y) {
        theirs <= ours
    } else {
        ours <= theirs
    }
}

/// Whether the first of the two is chosen, where its number is lower.
fn chooses_first(c: u8, number: u32, x: Cand, y: Cand) -> bool {
    digit(2, number, u32::from(x) * u32::from(c) + u32::from(y)) == 1
}

/// Whether the settling with the number has this outcome.
fn is_outcome(c: u8, number: u32, outcome: Option<Cand>) -> bool {
    match outcome {
        Some(x) => x < c && is_chosen_in_all(c, number, x),
        None => is_nobody(c, number),
    }
}

/// Whether nobody is chosen in all pairs.
fn is_nobody(c: u8, number: u32) -> bool {
    for x in 0..c {
        if is_chosen_in_all(c, number, x) {
            return false;
        }
    }
    true
}

/// Whether the candidate is chosen in all its pairs.
fn is_chosen_in_all(c: u8, number: u32, x: Cand) -> bool {
    for y in 0..c {
        if y != x && !is_chosen(c, number, x, y) {
            return false;
        }
    }
    true
}

/// Whether the first of the two is chosen.
fn is_chosen(c: u8, number: u32, x: Cand, y: Cand) -> bool {
    if x < y {
        chooses_first(c, number, x, y)
    } else {
        !chooses_first(c, number, y, x)
    }
}
