// The point of a form without negative values.
ghost use Rattle.std.specs.Prelude.{◌≡◌, ◌<◌, ◌^◌, ◌+◌, ◌*◌, ◌/◌, ◌-◌, length, map, find, All, IfOk, OnOk, MatchResult, Some, None, unsigned_abs};
ghost use Rattle.std.specs.List.{range_with_len};
ghost use Rattle.pivot_form.specs.Invariant.{IsForm};
ghost use Rattle.dual_theory.specs.Runs.{value_num, value_den};
ghost use Rattle.dual_theory.specs.Ends.{lcm_of, lowest_num, lowest_den, common_den, whole_number, whole_numbers, is_large, large_in_point, point_whole, point_den};
ghost use Rattle.lex_dual.specs.Choices.{places_of};
ghost use Rattle.lex_dual.specs.Faults.{IfWide};

use crate::SolveFault;
use exact_num::{WIDE, gcd};
use mov_base::List;
use pivot_form::{Form, Wide};
use row_program::{NumberList, Point, Program};
use std::alloc::Global;

/// A value that isn't negative.
#[derive(Clone, Copy, Debug)]
struct Fraction {
    num: u64,
    den: u64,
}

/// The value of the program's variable, its sign left aside.
fn value_at(form: &Form, places: &[Option<usize>], variable: usize) -> Fraction
    requires form { IsForm form.now }
    requires places { places.now ≡ places_of form.now }
    requires variable { variable + 1 < length places.now }
    ensures num { result.num ≡ unsigned_abs (value_num form.now (variable + 1)) }
    ensures den { result.den ≡ unsigned_abs (value_den form.now (variable + 1)) }
    ensures small_num { result.num < WIDE }
    ensures small_den { result.den < WIDE }
    ensures positive { 0 < result.den }
{
    match places[variable + 1] {
        Some(row) => Fraction {
            num: form.right(row).unsigned_abs(),
            den: form.entry(row, variable + 1).unsigned_abs(),
        },
        None => Fraction { num: 0, den: 1 },
    }
}

/// The value of the program's variable in lowest terms.
fn lowest_at(form: &Form, places: &[Option<usize>], variable: usize) -> Fraction
    requires form { IsForm form.now }
    requires places { places.now ≡ places_of form.now }
    requires variable { variable + 1 < length places.now }
    ensures num { result.num ≡ lowest_num form.now variable }
    ensures den { result.den ≡ lowest_den form.now variable }
    ensures small_num { result.num < WIDE }
    ensures small_den { result.den < WIDE }
    ensures positive { 0 < result.den }
{
    let value = value_at(form, places, variable);
    let divisor = gcd(value.num as u128, value.den as u128);
    Fraction {
        num: (value.num as u128 / divisor) as u64,
        den: (value.den as u128 / divisor) as u64,
    }
}

/// The least common multiple of two numbers of 63 bits.
fn lcm(a: u64, b: u64) -> u128
    requires small_a { a < WIDE }
    requires small_b { b < WIDE }
    requires positive { 0 < b }
    ensures value { result ≡ lcm_of a b }
    ensures small { result < 2 ^ 126 }
    ensures above { 0 < a → 0 < result }
{
    a as u128 * (b as u128 / gcd(a as u128, b as u128))
}

/// The least common denominator of the program's variables, or the first multiple on the way to it that has 63 bits or
/// more.
fn common_den(form: &Form, places: &[Option<usize>]) -> Result<u64, Wide>
    requires form { IsForm form.now }
    requires places { places.now ≡ places_of form.now }
    requires cost { 0 < length places.now }
    ensures value { MatchResult result (λ den. den ≡ common_den form.now (length places.now - 1))
        (λ wide. find is_large (map (common_den form.now) (range_with_len 1 (length places.now - 1)))
        ≡ Some wide.size) }
    ensures none { OnOk result
        (find is_large (map (common_den form.now) (range_with_len 1 (length places.now - 1))) ≡ None) }
    ensures small { IfOk result (λ den. den < WIDE) }
    ensures positive { IfOk result (λ den. 0 < den) }
{
    let mut den = 1;
    for variable in 0..places.len() - 1 {
        let multiple = lcm(den, lowest_at(form, places, variable).den);
        if multiple >= 1 << 63 {
            return Err(Wide { size: multiple });
        }
        den = multiple as u64;
    }
    Ok(den)
}

/// The value times a multiple of its denominator.
fn scaled(value: Fraction, den: u64) -> u128
    requires small_num { value.num < WIDE }
    requires small_den { den < WIDE }
    requires positive { 0 < value.den }
    ensures { result ≡ value.num * (den / value.den) }
{
    value.num as u128 * (den / value.den) as u128
}

/// The values of the program's variables times their least common denominator, or the first of them that has 63 bits or
/// more.
fn numbers(
    alloc: Global,
    form: &Form,
    places: &[Option<usize>],
    den: u64,
) -> Result<NumberList, SolveFault>
    requires form { IsForm form.now }
    requires places { places.now ≡ places_of form.now }
    requires cost { 0 < length places.now }
    requires den { den ≡ common_den form.now (length places.now - 1) }
    requires small { den < WIDE }
    ensures value { MatchResult result (λ whole. whole ≡ whole_numbers form.now (length places.now - 1))
        (IfWide (λ size. find is_large (whole_numbers form.now (length places.now - 1)) ≡ Some size)) }
    ensures none { OnOk result (find is_large (whole_numbers form.now (length places.now - 1)) ≡ None) }
    ensures small { IfOk result (λ whole. All (λ x. x < WIDE) whole) }
{
    let mut whole = List::new(alloc);
    for variable in 0..places.len() - 1 {
        let number = scaled(lowest_at(form, places, variable), den);
        if number >= 1 << 63 {
            return Err(SolveFault::Wide { size: number });
        }
        whole.push(number as u64)?;
    }
    Ok(whole)
}

/// The point of the values of the program's variables in their least common denominator, or the first of the common
/// denominators, and then of the numbers, that has 63 bits or more.
pub(crate) fn point(
    alloc: Global,
    program: &Program,
    form: &Form,
    places: &[Option<usize>],
) -> Result<Point, SolveFault>
    requires form { IsForm form.now }
    requires places { places.now ≡ places_of form.now }
    requires variables { length places.now ≡ 1 + length program.now.costs }
    ensures numbers { MatchResult result (λ point. point.whole ≡ point_whole program.now form.now)
        (IfWide (λ size. large_in_point program.now form.now ≡ Some size)) }
    ensures den { IfOk result (λ point. point.den ≡ point_den program.now form.now) }
    ensures none { OnOk result (large_in_point program.now form.now ≡ None) }
{
    let den = common_den(form, places)?;
    let whole = numbers(alloc, form, places, den)?;
    Ok(Point { whole, den })
}
