//! Lines as they are written: words and numbers, cut by single spaces and ended by a line feed.
//!
//! Each call adds to the end of a text. Without memory a first part of what it adds may have been added.
ghost use Rattle.std.specs.Prelude.{◌≡◌, ◌++◌, ◌∷◌, [], map, decimal, OnOk, OnErr};
ghost use Rattle.std.specs.List.{flat_map};
ghost use Rattle.text_lines.specs.Words.{line_text};
ghost use Rattle.text_lines.specs.Written.{AddedFirst};

use itoa::{Buffer, Integer};
use mov_base::Memory;

/// Adds a line of a word and a number.
pub fn push_one(out: &mut Vec<u8>, word: &[u8], number: u64) -> Result<(), Memory>
    ensures line { OnOk result (out.new.items ≡ out.old.items ++ line_text (word.now ∷ decimal number ∷ [])) }
    ensures part { OnErr result (AddedFirst out.old.items out.new.items (line_text (word.now ∷ decimal number ∷ []))) }
{
    push_list(out, word, [number].as_slice())
}

/// Adds a line of a word and two numbers.
pub fn push_two(out: &mut Vec<u8>, word: &[u8], number: u64, other: u64) -> Result<(), Memory>
    ensures line { OnOk result (out.new.items
        ≡ out.old.items ++ line_text (word.now ∷ decimal number ∷ decimal other ∷ [])) }
    ensures part { OnErr result (AddedFirst out.old.items out.new.items
        (line_text (word.now ∷ decimal number ∷ decimal other ∷ []))) }
{
    push_list(out, word, [number, other].as_slice())
}

/// Adds a line of a word and numbers.
pub fn push_list<I: Integer>(out: &mut Vec<u8>, word: &[u8], numbers: &[I]) -> Result<(), Memory>
    ensures line { OnOk result (out.new.items ≡ out.old.items ++ line_text (word.now ∷ map I.text numbers.now)) }
    ensures part { OnErr result (AddedFirst out.old.items out.new.items
        (line_text (word.now ∷ map I.text numbers.now))) }
{
    out.extend_from_slice(word)?;
    push_numbers(out, numbers)?;
    out.push(b'\n')?;
    Ok(())
}

/// Adds each number behind a space.
pub fn push_numbers<I: Integer>(out: &mut Vec<u8>, numbers: &[I]) -> Result<(), Memory>
    ensures numbers { OnOk result (out.new.items ≡ out.old.items ++ flat_map (λ n. 32 ∷ I.text n) numbers.now) }
    ensures part { OnErr result (AddedFirst out.old.items out.new.items (flat_map (λ n. 32 ∷ I.text n) numbers.now)) }
{
    for number in numbers {
        push_number(out, *number)?;
    }
    Ok(())
}

/// Adds a space and a number.
pub fn push_number<I: Integer>(out: &mut Vec<u8>, number: I) -> Result<(), Memory>
    ensures number { OnOk result (out.new.items ≡ out.old.items ++ 32 ∷ I.text number) }
    ensures part { OnErr result (AddedFirst out.old.items out.new.items (32 ∷ I.text number)) }
{
    let mut buffer = Buffer::new();
    out.push(b' ')?;
    out.extend_from_slice(buffer.format(number).as_bytes())?;
    Ok(())
}
