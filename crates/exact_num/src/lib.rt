//! Exact tools on whole numbers and fractions.
//!
//! It promises greatest common divisors, quotients that are rounded up, rows divided by their greatest common divisor,
//! sums of two products, and fractions in lowest terms with their order: each exact over the whole range that its
//! condition names. No call takes memory or refuses. It stands on nothing.
#![tactic(auto)]

ghost use Rattle.std.specs.Prelude.{◌≡◌, ℤ, pos, ◌<◌, ◌^◌, ◌*ℤ◌, ◌-ℤ◌, ◌<ℤ◌, ◌≤ℤ◌, ◌/◌, unsigned_abs, map};
ghost use Rattle.std.specs.Int.{IsGcd};
ghost use Rattle.std.specs.Int.RustNames.{int_div};
ghost use Rattle.std.specs.List.{All};
ghost use Rattle.exact_num.specs.Divisors.{gcd_of, gcd_with, row_gcd, primitive, IsPrimitive};

mod limits;
mod ratio;

pub use limits::WIDE;
pub use ratio::Ratio;

/// The greatest common divisor of two numbers. That of 0 and 0 is 0.
pub fn gcd(a: u128, b: u128) -> u128
    ensures divisor { IsGcd a b result }
    ensures value { result ≡ gcd_of a b }
{
    let mut x = a;
    let mut y = b;
    while y >= 1 << 64 {
        let rest = x % y;
        x = y;
        y = rest;
    }
    mixed_gcd(x, y as u64)
}

/// The greatest common divisor, where the second number has 64 bits: at most one division of more.
fn mixed_gcd(x: u128, y: u64) -> u128
    ensures { IsGcd x y result }
{
    if x < 1 << 64 {
        narrow_gcd(x as u64, y) as u128
    } else if y == 0 {
        x
    } else {
        narrow_gcd(y, (x % y as u128) as u64) as u128
    }
}

/// The greatest common divisor of two numbers of 64 bits.
fn narrow_gcd(a: u64, b: u64) -> u64
    ensures { IsGcd a b result }
{
    let mut x = a;
    let mut y = b;
    while y != 0 {
        let rest = x % y;
        x = y;
        y = rest;
    }
    x
}

/// The least whole number that is at least a / b.
pub fn ceil_div(a: i128, b: i128) -> i128
    requires positive { pos 0 <ℤ b }
    requires small { unsigned_abs a < 2 ^ 126 }
    ensures enough { a ≤ℤ (result *ℤ b) }
    ensures least { ((result -ℤ pos 1) *ℤ b) <ℤ a }
{
    let quotient = a / b;
    if a % b > 0 { quotient + 1 } else { quotient }
}

/// p x - q y, of numbers that aren't wide.
pub fn cross(p: i64, x: i64, q: i64, y: i64) -> i128
    requires small_p { unsigned_abs p < WIDE }
    requires small_x { unsigned_abs x < WIDE }
    requires small_q { unsigned_abs q < WIDE }
    requires small_y { unsigned_abs y < WIDE }
    ensures value { result ≡ p *ℤ x -ℤ q *ℤ y }
    ensures small { unsigned_abs result < 2 ^ 127 }
{
    p as i128 * x as i128 - q as i128 * y as i128
}

/// Divides all entries, of size below 2^127, by their greatest common divisor. A row of zeros stays.
pub fn reduce_row(row: &mut [i128])
    requires { All (λ x. unsigned_abs x < 2 ^ 127) row.old }
    ensures value { row.new ≡ primitive row.old }
    ensures multiple { map (λ x. x *ℤ pos (row_gcd row.old)) row.new ≡ row.old }
    ensures lowest { 0 < row_gcd row.old → IsPrimitive row.new }
{
    let mut divisor = 0;
    'measured: for x in row.iter() {
        divisor = with_entry(divisor, *x);
        if divisor == 1 {
            return;
        }
    }
    if divisor > 0 {
        'divided: for x in row.iter_mut() {
            *x = part_of(*x, divisor);
        }
    }
}

/// The greatest common divisor of the entries so far and one more.
fn with_entry(divisor: u128, x: i128) -> u128
    ensures { result ≡ gcd_with divisor x }
{
    if x == 0 {
        divisor
    } else {
        gcd(x.unsigned_abs(), divisor)
    }
}

/// x divided by the divisor, toward 0.
fn part_of(x: i128, divisor: u128) -> i128
    requires positive { 0 < divisor }
    requires small { unsigned_abs x < 2 ^ 127 }
    ensures { result ≡ int_div x (pos divisor) }
{
    if x == 0 {
        return 0;
    }
    let size = size_part(x.unsigned_abs(), divisor);
    if x < 0 { -(size as i128) } else { size as i128 }
}

/// The size divided by the divisor, in 64 bits where both have no more.
fn size_part(size: u128, divisor: u128) -> u128
    requires { 0 < divisor }
    ensures { result ≡ size / divisor }
{
    if size < 1 << 64 && divisor < 1 << 64 {
        (size as u64 / divisor as u64) as u128
    } else {
        size / divisor
    }
}
