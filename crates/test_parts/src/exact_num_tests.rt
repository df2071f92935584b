// The calls at numbers that were worked out by hand.
use exact_num::{Ratio, ceil_div, cross, gcd, reduce_row};
use std::cmp::Ordering;

#[test]
fn numbers_and_fractions(rt: HostRuntime) {
    for (a, b, divisor) in [(0, 0, 0), (12, 18, 6), (9, 3 << 70, 3)] {
        assert_eq!(rt; gcd(a, b), divisor);
    }
    assert_eq!(rt; ceil_div(-7, 2), -3);
    assert_eq!(rt; cross(-3, 5, 2, -4), -7);
    let mut row = [6, -9, 0, 15 << 70];
    reduce_row(&mut row);
    assert_eq!(rt; row.as_slice(), [2, -3, 0, 5 << 70].as_slice());
    let half = Ratio::new(3, 6);
    assert_eq!(rt; half.ceil(), 1);
    assert_eq!(rt; half.compare(&Ratio::new(2, 3)), Ordering::Less);
    assert_eq!(rt; half, Ratio::new(5, 10));
}
