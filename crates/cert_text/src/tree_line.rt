// The lines of a tree.
ghost use Rattle.std.specs.Prelude.{◌≡◌};
ghost use Rattle.text_lines.specs.Faults.{UnlessMemory};
ghost use Rattle.text_lines.specs.Words.{fields_of, ahead};
ghost use Rattle.text_lines.specs.Forms.{made};
ghost use Rattle.cert_text.specs.TreeLines.{seen, tree_line, split_line, cut_line, branch_line, from_line, arc_line};

use crate::limits::{
    GREATEST_KEY, GREATEST_MULTIPLIER, GREATEST_VALUE, LAST_ENTERED, LAST_LEFT, MOST_MULTIPLIERS,
};
use bound_tree::Multipliers;
use mov_base::List;
use row_program::{Feature, MOST_KIDS};
use std::alloc::Global;
use text_lines::parts::Fields;
use text_lines::{LineFault, any_numbers, both, fields, is_word, number, one_number, two_numbers};

/// A line of a tree: a split into so many, a branch, or a cut.
#[derive(Drop)]
pub(crate) enum TreeLine {
    Split(u32),
    Branch(Feature, u32),
    Cut(Multipliers),
}

/// What a line of a tree says.
pub(crate) fn read_tree_line(alloc: Global, line: &[u8]) -> Result<TreeLine, LineFault>
    ensures { UnlessMemory result (made seen result ≡ tree_line (fields_of line.now)) }
{
    let mut rest = fields(line);
    match rest.next() {
        None => Err(LineFault::BadLine),
        Some(word) => {
            if is_word(word.text, b"split") {
                read_split(&mut rest)
            } else if is_word(word.text, b"cut") {
                read_cut(alloc, &mut rest)
            } else if is_word(word.text, b"branch") {
                read_branch(&mut rest)
            } else {
                Err(LineFault::BadLine)
            }
        }
    }
}

/// A split.
fn read_split(rest: &mut Fields<'_>) -> Result<TreeLine, LineFault>
    ensures { made seen result ≡ split_line (ahead rest.old) }
{
    let kids = one_number(0, MOST_KIDS as u64, rest)?;
    Ok(TreeLine::Split(kids as u32))
}

/// A branch.
fn read_branch(rest: &mut Fields<'_>) -> Result<TreeLine, LineFault>
    ensures { made seen result ≡ branch_line (ahead rest.old) }
{
    match rest.next() {
        None => Err(LineFault::BadLine),
        Some(word) => {
            if is_word(word.text, b"from") {
                read_from(rest)
            } else if is_word(word.text, b"arc") {
                read_arc(rest)
            } else {
                Err(LineFault::BadLine)
            }
        }
    }
}

/// A branch by the key of the old ballot.
fn read_from(rest: &mut Fields<'_>) -> Result<TreeLine, LineFault>
    ensures { made seen result ≡ from_line (ahead rest.old) }
{
    let (key, value) = two_numbers(0, GREATEST_KEY, 0, u64::from(GREATEST_VALUE), rest)?;
    Ok(TreeLine::Branch(Feature::From(key), value as u32))
}

/// A branch by an arc of the new ballot's signature.
fn read_arc(rest: &mut Fields<'_>) -> Result<TreeLine, LineFault>
    ensures { made seen result ≡ arc_line (ahead rest.old) }
{
    match rest.next() {
        None => Err(LineFault::BadLine),
        Some(field) => {
            let u = number(0, u64::from(LAST_LEFT), field.text);
            let (last, most) = (u64::from(LAST_ENTERED), u64::from(GREATEST_VALUE));
            let (u, (x, value)) = both(u, two_numbers(1, last, 0, most, rest))?;
            let arc = Feature::Arc(u as u8, x as u8);
            Ok(TreeLine::Branch(arc, value as u32))
        }
    }
}

/// A cut.
#[tactic(auto, using(crate::proofs::Numbers::small_multipliers))]
fn read_cut(alloc: Global, rest: &mut Fields<'_>) -> Result<TreeLine, LineFault>
    ensures { UnlessMemory result (made seen result ≡ cut_line (ahead rest.old)) }
{
    if rest.left() > MOST_MULTIPLIERS {
        return Err(LineFault::BadLine);
    }
    let numbers = any_numbers(List::new(alloc), 0, GREATEST_MULTIPLIER, rest)?;
    Ok(TreeLine::Cut(Multipliers::from_vec(numbers.into_vec())))
}
