// All orders of elimination.
use super::digits::digit;
use ballot_form::{Cand, Roll};
use irv_count::{is_order, legal_order};
use mov_base::Memory;
use std::alloc::Global;

/// Whether some legal order ends in the candidate. There are at most 4 candidates.
pub(crate) fn some_order(alloc: Global, roll: &Roll, x: Cand) -> Result<bool, Memory> {
    let c = roll.candidates();
    let mut counts = vec![in alloc; 0u32; usize::from(c)]?;
    let mut order = vec![in alloc; 0u8; usize::from(c)]?;
    for number in 0..order_count(c) {
        write_digits(c, number, order.as_mut_slice());
        if is_ending(roll, counts.as_mut_slice(), order.as_slice(), x) {
            return Ok(true);
        }
    }
    Ok(false)
}

/// How many numbers have all the digits that orders have.
fn order_count(c: u8) -> u32 {
    u32::from(c).saturating_pow(u32::from(c.min(4)))
}

/// Writes the digits of the number.
fn write_digits(c: u8, number: u32, order: &mut [Cand]) {
    let mut place = 0u32;
    for x in order.iter_mut() {
        *x = u8::try_from(digit(u32::from(c), number, place))
            .ok()
            .unwrap_or(0);
        place = place.wrapping_add(1);
    }
}

/// Whether the list is a legal order that ends in the candidate.
fn is_ending(roll: &Roll, counts: &mut [u32], order: &[Cand], x: Cand) -> bool {
    counts.len() == usize::from(roll.candidates())
        && is_order(order, roll.candidates())
        && legal_order(roll, order, counts)
        && order.last().copied() == Some(x)
}
