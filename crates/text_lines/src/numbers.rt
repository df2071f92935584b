// Decimal numbers.
ghost use Rattle.std.specs.Prelude.{◌≡◌, ◌≤◌, ◌<◌, ◌+◌, ◌*◌, MatchOption, true};
ghost use Rattle.std.specs.List.{list_all};
ghost use Rattle.std.specs.Char.{is_ascii_digit};
ghost use Rattle.std.specs.Str.Parse.{digits_value};
ghost use Rattle.text_lines.specs.Numbers.{IsUpTo, numeral_of};
ghost use Rattle.text_lines.specs.Numbers as spec;

/// What a text is, read as a decimal number.
#[derive(Clone, Copy, Debug, PartialEq, Eq)]
pub enum Numeral {
    /// It is empty, or has a byte that isn't a digit.
    NotDigits,
    /// It is more than one digit, and the first is 0.
    LeadingZero,
    /// It writes a number above the limit.
    Above,
    /// It writes this number.
    Number(u64),
}

/// The number that a text writes, where it is at most `high`. The text may have any number of digits.
pub fn read_numeral(high: u64, text: &[u8]) -> Numeral
    ensures is { result ≡ numeral_of high text.now }
    ensures within { IsUpTo high result }
{
    if !are_digits(text) {
        return Numeral::NotDigits;
    }
    if has_leading_zero(text) {
        return Numeral::LeadingZero;
    }
    match value_up_to(high, text) {
        Some(n) => Numeral::Number(n),
        None => Numeral::Above,
    }
}

/// Whether the text is one or more digits.
fn are_digits(text: &[u8]) -> bool
    ensures { result ≡ spec.are_digits text.now }
{
    !text.is_empty() && all_digits(text)
}

/// Whether each byte is a digit.
fn all_digits(text: &[u8]) -> bool
    ensures { result ≡ list_all is_ascii_digit text.now }
{
    text.iter().all(|byte| byte.is_ascii_digit())
}

/// Whether a text of more than one byte begins with `0`.
fn has_leading_zero(text: &[u8]) -> bool
    ensures { result ≡ spec.has_leading_zero text.now }
{
    text.len() > 1 && text[0] == b'0'
}

/// The number of these digits, where it is at most `high`. It doesn't overflow, however many digits there are.
#[tactic(auto, using(crate::proofs::Digits::digit_here, crate::proofs::Digits::value_more))]
fn value_up_to(high: u64, digits: &[u8]) -> Option<u64>
    requires { list_all is_ascii_digit digits.now ≡ true }
    ensures { MatchOption result (high < digits_value 10 digits.now)
        (λ n. (n ≡ digits_value 10 digits.now) × (n ≤ high)) }
{
    let mut n = 0u64;
    for byte in digits {
        n = with_digit(high, n, *byte - b'0')?;
    }
    Some(n)
}

/// The number with a digit more, where it is at most `high`.
fn with_digit(high: u64, n: u64, digit: u8) -> Option<u64>
    ensures { MatchOption result (high < n * 10 + digit) (λ m. (m ≡ n * 10 + digit) × (m ≤ high)) }
{
    let more = n.checked_mul(10)?.checked_add(u64::from(digit))?;
    if more > high { None } else { Some(more) }
}
