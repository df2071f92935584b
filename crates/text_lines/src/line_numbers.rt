// What is left of a line, read as numbers.
ghost use Rattle.std.specs.Prelude.{◌≡◌, ◌≤◌, [], drop, length, IfOk, OnOk};
ghost use Rattle.std.specs.Str.{bytes_eq};
ghost use Rattle.text_lines.specs.Words.{ahead};
ghost use Rattle.text_lines.specs.Faults.{UnlessMemory};
ghost use Rattle.text_lines.specs.Forms.{begins, behind, alone, made, one_of, two_of, numbers_of, count_of, joined, single, number_within};

use crate::fault::{LineFault, both};
use crate::lists::NumberList;
use crate::numbers::{Numeral, read_numeral};
use crate::parts::Fields;

/// The number that a field is, from `low` to `high`.
pub fn number(low: u64, high: u64, field: &[u8]) -> Result<u64, LineFault>
    ensures is { result ≡ number_within low high field.now }
    ensures within { IfOk result (λ n. (low ≤ n) × (n ≤ high)) }
{
    match read_numeral(high, field) {
        Numeral::NotDigits => Err(LineFault::BadLine),
        Numeral::Number(n) if low <= n => Ok(n),
        _ => Err(LineFault::BadNumber),
    }
}

/// The part, where no field is left. Where one is, it is passed over.
pub fn nothing_more<T: Drop>(
    part: Result<T, LineFault>,
    fields: &mut Fields<'_>,
) -> Result<T, LineFault>
    ensures is { result ≡ alone part (ahead fields.old) }
    ensures rest { ahead fields.new ≡ drop 1 (ahead fields.old) }
    ensures line { fields.new.line ≡ fields.old.line }
{
    match fields.next() {
        None => part,
        Some(_) => Err(LineFault::BadLine),
    }
}

/// The one number that is left, from `low` to `high`. It passes over two fields at most.
pub fn one_number(low: u64, high: u64, fields: &mut Fields<'_>) -> Result<u64, LineFault>
    ensures is { result ≡ one_of low high (ahead fields.old) }
    ensures within { IfOk result (λ n. (low ≤ n) × (n ≤ high)) }
    ensures rest { ahead fields.new ≡ drop 2 (ahead fields.old) }
    ensures line { fields.new.line ≡ fields.old.line }
{
    match fields.next() {
        None => Err(LineFault::BadLine),
        Some(field) => nothing_more(number(low, high, field.text), fields),
    }
}

/// The two numbers that are left, each within its limits. It passes over three fields at most.
pub fn two_numbers(
    low: u64,
    high: u64,
    low2: u64,
    high2: u64,
    fields: &mut Fields<'_>,
) -> Result<(u64, u64), LineFault>
    ensures is { result ≡ two_of (low, high) (low2, high2) (ahead fields.old) }
    ensures within { IfOk result (λ x. (low ≤ x.0) × (x.0 ≤ high) × (low2 ≤ x.1) × (x.1 ≤ high2)) }
    ensures rest { ahead fields.new ≡ drop 3 (ahead fields.old) }
    ensures line { fields.new.line ≡ fields.old.line }
{
    match fields.next() {
        None => Err(LineFault::BadLine),
        Some(field) => both(
            number(low, high, field.text),
            one_number(low2, high2, fields),
        ),
    }
}

/// One number more, or the graver fault.
fn with_number<N: NumberList>(
    found: Result<N, LineFault>,
    next: Result<u64, LineFault>,
) -> Result<N, LineFault>
    requires kept { IfOk next (λ n. n ≤ N.most) }
    ensures { UnlessMemory result (made N.numbers result ≡ joined (made N.numbers found) (single next)) }
{
    let (mut numbers, n) = both(found, next)?;
    numbers.keep(n)?;
    Ok(numbers)
}

/// The numbers that are left, from `low` to `high`, in the list `empty`.
pub fn any_numbers<N: NumberList>(
    empty: N,
    low: u64,
    high: u64,
    fields: &mut Fields<'_>,
) -> Result<N, LineFault>
    requires kept { high ≤ N.most }
    requires empty { N.numbers empty ≡ [] }
    ensures is { UnlessMemory result (made N.numbers result ≡ numbers_of low high (ahead fields.old)) }
    ensures rest { ahead fields.new ≡ [] }
    ensures line { fields.new.line ≡ fields.old.line }
{
    let mut found = Ok(empty);
    while let Some(field) = fields.next() {
        found = with_number(found, number(low, high, field.text));
    }
    found
}

/// The numbers that are left, exactly so many and each from `low` to `high`, in the list `empty`. Where so many fields
/// aren't left, none is read.
pub fn so_many_numbers<N: NumberList>(
    empty: N,
    count: usize,
    low: u64,
    high: u64,
    fields: &mut Fields<'_>,
) -> Result<N, LineFault>
    requires kept { high ≤ N.most }
    requires empty { N.numbers empty ≡ [] }
    ensures is { UnlessMemory result (made N.numbers result ≡ count_of count low high (ahead fields.old)) }
    ensures rest { length (ahead fields.old) ≡ count → ahead fields.new ≡ [] }
    ensures unread { (length (ahead fields.old) ≡ count → ⊥) → fields.new ≡ fields.old }
    ensures line { fields.new.line ≡ fields.old.line }
{
    if fields.left() != count {
        return Err(LineFault::BadLine);
    }
    any_numbers(empty, low, high, fields)
}

/// Whether the next field is this word; it is passed over.
pub fn next_is(fields: &mut Fields<'_>, word: &[u8]) -> bool
    ensures is { result ≡ begins word.now (ahead fields.old) }
    ensures rest { ahead fields.new ≡ behind (ahead fields.old) }
    ensures line { fields.new.line ≡ fields.old.line }
{
    match fields.next() {
        None => false,
        Some(field) => is_word(field.text, word),
    }
}

/// Whether the field is this word.
pub fn is_word(field: &[u8], word: &[u8]) -> bool
    ensures { result ≡ bytes_eq field.now word.now }
{
    field == word
}
