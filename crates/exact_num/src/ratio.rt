// Fractions in lowest terms.
ghost use Rattle.std.specs.Prelude.{◌≡◌, ℤ, pos, ◌<◌, ◌*ℤ◌, ◌-ℤ◌, ◌<ℤ◌, ◌≤ℤ◌, unsigned_abs};
ghost use Prim.Native.Nat.{◌∣◌};
ghost use Rattle.std.specs.Ordering.{MatchOrdering};
ghost use Rattle.exact_num.specs.Divisors.{gcd_of};

use crate::{ceil_div, gcd, part_of};
use std::cmp::Ordering;

/// A fraction with a denominator above 0, in lowest terms.
#[derive(Clone, Copy, Debug, PartialEq, Eq)]
pub struct Ratio {
    /// The numerator, which has the fraction's sign.
    pub num: i64,
    /// The denominator.
    pub den: i64,
    pub ghost positive: { pos 0 <ℤ den },
    pub ghost lowest: { gcd_of (unsigned_abs num) (unsigned_abs den) ≡ 1 },
}

impl Ratio {
    /// The fraction num / den, brought to lowest terms.
    pub fn new(num: i64, den: i64) -> Ratio
        requires { pos 0 <ℤ den }
        ensures { result.num *ℤ den ≡ num *ℤ result.den }
    {
        let divisor = gcd(num.unsigned_abs() as u128, den.unsigned_abs() as u128);
        Ratio {
            num: quotient(num, divisor),
            den: quotient(den, divisor),
        }
    }

    /// The order of two fractions by their values.
    pub fn compare(&self, other: &Ratio) -> Ordering
        ensures { MatchOrdering result ((self.now.num *ℤ other.now.den) <ℤ (other.now.num *ℤ self.now.den))
            (self.now.num *ℤ other.now.den ≡ other.now.num *ℤ self.now.den)
            ((other.now.num *ℤ self.now.den) <ℤ (self.now.num *ℤ other.now.den)) }
    {
        let left = product(self.num, other.den);
        let right = product(other.num, self.den);
        left.cmp(&right)
    }

    /// The least whole number that is at least the fraction.
    pub fn ceil(&self) -> i64
        ensures enough { self.now.num ≤ℤ (result *ℤ self.now.den) }
        ensures least { ((result -ℤ pos 1) *ℤ self.now.den) <ℤ self.now.num }
    {
        ceil_div(self.num as i128, self.den as i128) as i64
    }
}

/// x divided by a divisor of it.
fn quotient(x: i64, divisor: u128) -> i64
    requires positive { 0 < divisor }
    requires divides { divisor ∣ unsigned_abs x }
    ensures { result *ℤ pos divisor ≡ x }
{
    part_of(x as i128, divisor) as i64
}

/// The product of two numbers, which has room in 128 bits.
fn product(a: i64, b: i64) -> i128
    ensures { result ≡ a *ℤ b }
{
    a as i128 * b as i128
}
