// Counts and orders of small contests and of one from a textbook.
use crate::rolls::{cands, roll_of};
use ballot_form::{Cand, Roll};
use irv_count::{
    all_of, count_irv, held_counts, is_order, legal_order, order_against, stands_in, without,
};
use std::alloc::Global;
use std::process::Abort;
use std::test::Fail;

/// The set of the candidates that letters stand for.
fn set_of(alloc: Global, letters: &str) -> Result<u64, Fail> {
    let row = cands(alloc, letters)?;
    let mut out = all_of(12);
    for x in row.iter() {
        if *x < 12 {
            out = without(out, *x);
        }
    }
    Ok(all_of(12) ^ out)
}

/// How many ballots each of three candidates holds while these stand.
fn held_text(alloc: Global, roll: &Roll, standing: u64) -> Result<String, Fail> {
    let mut counts = [9u32; 3];
    if roll.candidates() != 3 || standing >= 8 {
        return Err("not of three".into());
    }
    held_counts(roll, standing, counts.as_mut_slice());
    Ok(format!(in alloc; "{counts:?}")?)
}

/// Whether the order is one of three candidates that is legal.
fn is_legal(roll: &Roll, order: &[Cand]) -> bool {
    let mut counts = [9u32; 3];
    roll.candidates() == 3 && is_order(order, 3) && legal_order(roll, order, counts.as_mut_slice())
}

/// The legal orders of three candidates, of all six.
fn legal_text(alloc: Global, roll: &Roll) -> Result<String, Fail> {
    let mut text = String::new(alloc);
    for order in ["ABC", "ACB", "BAC", "BCA", "CAB", "CBA"] {
        if is_legal(roll, cands(alloc, order)?.as_slice()) {
            text.push_str(format!(in alloc; " {order}")?.as_str())?;
        }
    }
    Ok(text)
}

/// The order against a candidate.
fn against_text(alloc: Global, roll: &Roll, x: Cand) -> Result<String, Fail> {
    if x >= roll.candidates() {
        return Err("no such candidate".into());
    }
    let order = order_against(alloc, roll, x)?;
    Ok(format!(in alloc; "{:?}", order.as_slice())?)
}

/// A line of the counts.
fn holds(rt: &impl Abort, alloc: Global, line: &str) -> Result<(), Fail> {
    let mut fields = line.splitn(3, ';');
    let roll = roll_of(alloc, fields.next().ok_or("no ballots")?)?;
    let standing = set_of(alloc, fields.next().ok_or("no set")?)?;
    let text = held_text(alloc, &roll, standing)?;
    assert_eq!(rt; text.as_str(), fields.next().ok_or("no counts")?.trim());
    Ok(())
}

/// Ballots; who stands; how many each holds.
const COUNTS: &str = "\
3: 5 A, 4 BC, 3 CA; ABC; [5, 4, 3]
3: 5 A, 4 BC, 3 CA; AB; [8, 4, 0]
3: 5 A, 4 BC, 3 CA; A; [8, 0, 0]
3: 5 A, 4 BC, 3 CA; BC; [0, 4, 3]
3: 5 A, 4 BC, 3 CA; ; [0, 0, 0]
";

/// A line of the orders.
fn has_orders(rt: &impl Abort, alloc: Global, line: &str) -> Result<(), Fail> {
    let mut fields = line.splitn(4, ';');
    let roll = roll_of(alloc, fields.next().ok_or("no ballots")?)?;
    let legal = legal_text(alloc, &roll)?;
    assert_eq!(rt; legal.as_str(), fields.next().ok_or("no orders")?);
    let order = count_irv(alloc, &roll)?;
    let text = format!(in alloc; "{:?}", order.as_slice())?;
    assert_eq!(rt; text.as_str(), fields.next().ok_or("no order")?.trim());
    let against = against_text(alloc, &roll, 1)?;
    assert_eq!(rt;
        against.as_str(),
        fields.next().ok_or("no order against")?.trim()
    );
    Ok(())
}

/// Instant runoff of twelve; a tie at the first elimination; blank ballots alone. Ballots; the legal orders of
/// elimination; the order that is reported; the order against the second candidate.
const ORDERS: &str = "\
3: 5 A, 4 BC, 3 CA; CBA; [2, 1, 0]; [2, 1, 0]
3: 4 A, 3 BC, 3 CA; BAC CBA; [2, 1, 0]; [1, 0, 2]
3: 2; ABC ACB BAC BCA CAB CBA; [2, 1, 0]; [1, 2, 0]
";

#[test]
fn counts_and_orders(rt: HostRuntime) -> Result<(), Fail> {
    for line in COUNTS.lines() {
        holds(&rt, rt.alloc(), line)?;
    }
    for line in ORDERS.lines() {
        has_orders(&rt, rt.alloc(), line)?;
    }
    let tennessee = roll_of(rt.alloc(), "4: 42 ABCD, 26 BCDA, 15 CDBA, 17 DCBA")?;
    assert_eq!(rt;
        count_irv(rt.alloc(), &tennessee)?.as_slice(),
        [2, 1, 0, 3].as_slice()
    );
    Ok(())
}

#[test]
fn sets_of_candidates(rt: HostRuntime) {
    assert_eq!(rt; all_of(1), 1);
    assert_eq!(rt; all_of(12), 0xfff);
    assert_eq!(rt; without(0b1011, 1), 0b1001);
    assert_eq!(rt; without(0b1011, 2), 0b1011);
    assert!(rt; stands_in(0b100, 2) && !stands_in(0b100, 1) && !stands_in(u64::MAX, 64));
}
