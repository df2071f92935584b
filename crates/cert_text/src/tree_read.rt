// Reading a tree.
ghost use Rattle.std.specs.Prelude.{◌≡◌, ◌<◌, ◌≤◌, ◌+◌, ◌^◌, map, length, OnOk};
ghost use Rattle.bound_tree.specs.Plain.{plain_of};
ghost use Rattle.cert_text.specs.Reading.{ReadsPart, many_at, text_left};
ghost use Rattle.cert_text.specs.TreeLines.{seen};
ghost use Rattle.cert_text.specs.TreeReading.{tree_line_at, grown_at, node_at};

use crate::fault::{CertFault, CertKind};
use crate::reader::{Reader, at_number, fault};
use crate::tree_line::{TreeLine, read_tree_line};
use bound_tree::{MOST_NODES, Tree};
use mov_base::{List, One};
use std::alloc::Global;

/// A good line of a tree whose first line is `first`.
#[tactic(auto, unfolding(crate::specs::TreeReading::tree_line_at))]
fn next_tree_line(alloc: Global, first: u32, reader: &mut Reader<'_>) -> Result<TreeLine, CertFault>
    requires first { first < 2 ^ 21 }
    requires number { reader.old.number ≤ first + MOST_NODES }
    ensures line { ReadsPart (λ x. (seen x, text_left reader.new)) result (tree_line_at first (text_left reader.old)) }
    ensures number { OnOk result (reader.new.number ≤ first + MOST_NODES) }
{
    let number = reader.number;
    if reader.rest.is_empty() {
        return Err(fault(CertKind::TreeEnds, number));
    }
    let text = reader.line()?;
    let line = at_number(number, read_tree_line(alloc, text))?;
    if number >= first + MOST_NODES {
        return Err(fault(CertKind::TooManyNodes, number));
    }
    Ok(line)
}

/// A node of a tree whose first line is `first`, with at most `left` nodes on each way down from it, itself included.
#[cycle(nodes)]
#[tactic(auto, using(crate::proofs::Growing::step_zero, crate::proofs::Growing::step_more, bound_tree::proofs::Shapes::plain_Split, bound_tree::proofs::Shapes::plain_Branch, bound_tree::proofs::Shapes::plain_Cut), unfolding(crate::specs::TreeReading::grown_at))]
pub(crate) fn read_node(
    alloc: Global,
    left: u32,
    first: u32,
    reader: &mut Reader<'_>,
) -> Result<Tree, CertFault>
    requires left { left < 2 ^ 16 }
    requires first { first < 2 ^ 21 }
    requires number { reader.old.number ≤ first + MOST_NODES }
    ensures node { ReadsPart (λ t. (plain_of t, text_left reader.new)) result
        (node_at left first (text_left reader.old)) }
    ensures number { OnOk result (reader.new.number ≤ first + MOST_NODES) }
{
    let number = reader.number;
    let line = next_tree_line(alloc, first, reader)?;
    if left == 0 {
        return Err(fault(CertKind::TooDeep, number));
    }
    match line {
        TreeLine::Split(count) => {
            let kids = read_kids(alloc, left - 1, first, count, reader)?;
            Ok(Tree::Split(kids))
        }
        TreeLine::Branch(feature, value) => {
            let low = read_node(alloc, left - 1, first, reader)?;
            let high = read_node(alloc, left - 1, first, reader)?;
            Ok(Tree::Branch(
                feature,
                value,
                One::new(alloc, low)?,
                One::new(alloc, high)?,
            ))
        }
        TreeLine::Cut(multipliers) => Ok(Tree::Cut(multipliers)),
    }
}

/// So many trees, one after another.
#[cycle(nodes)]
fn read_kids(
    alloc: Global,
    left: u32,
    first: u32,
    count: u32,
    reader: &mut Reader<'_>,
) -> Result<List<Tree>, CertFault>
    requires left { left < 2 ^ 16 }
    requires first { first < 2 ^ 21 }
    requires number { reader.old.number ≤ first + MOST_NODES }
    ensures nodes { ReadsPart (λ kids. (map plain_of kids, text_left reader.new)) result
        (many_at (node_at left first) count (text_left reader.old)) }
    ensures number { OnOk result (reader.new.number ≤ first + MOST_NODES) }
{
    let mut kids = List::new(alloc);
    for _ in 0..count {
        let kid = read_node(alloc, left, first, reader)?;
        kids.push(kid)?;
    }
    Ok(kids)
}
