// Digits.

/// The digit of the number at the place, from the lowest, 0. The base isn't 0.
pub(crate) fn digit(base: u32, number: u32, place: u32) -> u32 {
    let mut left = number;
    for _ in 0..place {
        left = left.checked_div(base).unwrap_or(0);
    }
    left.checked_rem(base).unwrap_or(0)
}
