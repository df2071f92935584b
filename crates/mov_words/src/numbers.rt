// Numbers in words: `0`, or digits without a leading zero, each within its limits.
ghost use Rattle.std.specs.Prelude.{◌≡◌, ◌≤◌, IfSome, option_map};
ghost use Rattle.cert_text.specs.declared.limits.TheConstants.{MOST_BUDGET};
ghost use Rattle.mov_words.specs.Numbers as numbers;

use crate::limits::{DEFAULT_BUDGET, GREATEST_SEED};
use ballot_form::MOST_SEATS;
use cert_text::MOST_BUDGET;
use text_lines::{Numeral, read_numeral};

/// The number of seats, 1 to 500, that a text names.
pub(crate) fn seats_named(text: &str) -> Option<u16>
    ensures { result ≡ numbers.seats_named text.now }
{
    match read_numeral(u64::from(MOST_SEATS), text.as_bytes()) {
        Numeral::Number(n) if n >= 1 => Some(n as u16),
        _ => None,
    }
}

/// The budget, 1 to 40,000, that a text names.
fn budget_named(text: &str) -> Option<u32>
    ensures value { result ≡ numbers.budget_named text.now }
    ensures some { IfSome result (λ b. 1 ≤ b) }
    ensures most { IfSome result (λ b. b ≤ MOST_BUDGET) }
{
    match read_numeral(u64::from(MOST_BUDGET), text.as_bytes()) {
        Numeral::Number(n) if n >= 1 => Some(n as u32),
        _ => None,
    }
}

/// The budget that a text names, where there is one, and else the one that stands for it.
pub(crate) fn budget_of(text: Option<&str>) -> Option<u32>
    ensures value { result ≡ numbers.budget_of (option_map (λ s. s.now) text.entry) }
    ensures some { IfSome result (λ b. 1 ≤ b) }
    ensures most { IfSome result (λ b. b ≤ MOST_BUDGET) }
{
    match text {
        Some(text) => budget_named(text),
        None => Some(DEFAULT_BUDGET),
    }
}

/// The seed, 0 to 2^64 - 1, that a text names.
pub(crate) fn seed_named(text: &str) -> Option<u64>
    ensures { result ≡ numbers.seed_named text.now }
{
    match read_numeral(GREATEST_SEED, text.as_bytes()) {
        Numeral::Number(n) => Some(n),
        _ => None,
    }
}
