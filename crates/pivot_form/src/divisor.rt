// Divisors by which quotients are found without a division.
ghost use Rattle.std.specs.Prelude.{◌≡◌, ◌<◌, ◌*◌, pos, ◌*ℤ◌, ◌<ℤ◌, ◌≤ℤ◌, unsigned_abs, IfSome, IsTrue};
ghost use Rattle.std.specs.Int.RustNames.{int_div};
ghost use Rattle.exact_num.specs.Divisors.{gcd_with};
ghost use Rattle.exact_num.specs.declared.limits.TheConstants.{WIDE};

use exact_num::{WIDE, gcd};

/// A number of 63 bits, and what makes it quick to divide by.
#[derive(Clone, Copy, Debug)]
pub(crate) struct Divisor {
    /// The number itself.
    pub(crate) value: i64,
    /// The power of two in it.
    shift: u32,
    /// What gives 1 modulo 2^64, times the odd part of the number.
    inverse: i64,
    /// No quotient of a number of 63 bits is greater.
    most: u64,
    pub ghost positive: { pos 0 ≤ℤ value },
    pub ghost room: { most * unsigned_abs value < WIDE },
    pub ghost short: { shift < 64 },
}

impl Divisor {
    /// The divisor of this value.
    pub(crate) fn new(value: i64) -> Divisor
        requires { pos 0 ≤ℤ value }
        ensures { result.value ≡ value }
    {
        let shift = value.trailing_zeros() % 64;
        Divisor {
            value,
            shift,
            inverse: inverse_of(value >> shift),
            most: most_quotient(value),
        }
    }

    /// The number over the divisor, where it is whole and found by the inverse.
    fn quotient(&self, x: i64) -> Option<i64>
        ensures { IfSome result (λ y. y *ℤ self.now.value ≡ x) }
    {
        let guess = self.guess(x);
        if self.is_quotient(guess, x) {
            Some(guess)
        } else {
            None
        }
    }

    /// The number over the divisor, where it is whole. No answer rests on it: it is tried.
    fn guess(&self, x: i64) -> i64 {
        (x >> self.shift).wrapping_mul(self.inverse)
    }

    /// Whether the divisor times this quotient is the number.
    fn is_quotient(&self, quotient: i64, x: i64) -> bool
        ensures { IsTrue result → quotient *ℤ self.now.value ≡ x }
    {
        quotient.unsigned_abs() <= self.most && quotient * self.value == x
    }

    /// The number over the divisor, toward 0.
    pub(crate) fn part_of(&self, x: i64) -> i64
        requires { pos 0 <ℤ self.now.value }
        ensures { result ≡ int_div x self.now.value }
    {
        match self.quotient(x) {
            Some(part) => part,
            None => x / self.value,
        }
    }

    /// The greatest common divisor of the divisor and one more number.
    pub(crate) fn with_entry(self, x: i64) -> Divisor
        requires { unsigned_abs x < WIDE }
        ensures { pos (gcd_with (unsigned_abs self.value) x) ≡ result.value }
    {
        match self.quotient(x) {
            Some(_) => self,
            None => Divisor::new(common_divisor(self.value, x)),
        }
    }
}

/// The greatest common divisor of two numbers of 63 bits.
pub(crate) fn common_divisor(a: i64, b: i64) -> i64
    requires small_a { unsigned_abs a < WIDE }
    requires small_b { unsigned_abs b < WIDE }
    ensures value { result ≡ pos (gcd_with (unsigned_abs a) b) }
{
    signed(gcd(u128::from(b.unsigned_abs()), u128::from(a.unsigned_abs())))
}

/// The size as a number.
fn signed(size: u128) -> i64
    requires { size < WIDE }
    ensures { result ≡ pos size }
{
    size as i64
}

/// What gives 1 modulo 2^64, times the odd number. No answer rests on it: it makes the quotients that are tried.
fn inverse_of(odd: i64) -> i64 {
    let mut inverse = odd.wrapping_mul(3) ^ 2;
    for _ in 0..4 {
        inverse = inverse.wrapping_mul(2_i64.wrapping_sub(odd.wrapping_mul(inverse)));
    }
    inverse
}

/// The greatest size of a quotient of a number of 63 bits by the value; 0 of 0.
fn most_quotient(value: i64) -> u64
    requires { pos 0 ≤ℤ value }
    ensures { result * unsigned_abs value < WIDE }
{
    if value == 0 {
        0
    } else {
        (WIDE - 1) / value as u64
    }
}
