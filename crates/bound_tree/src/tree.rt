// Trees of bounds, and walks that count.
ghost use Rattle.std.specs.Prelude.{◌≡◌, ◌<◌, ◌≤◌, ◌^◌, sum_by, map};
ghost use Rattle.bound_tree.specs.Plain.{plain_of, kids_of};
ghost use Rattle.bound_tree.specs.Nodes.{size, height, highest};

use crate::Multipliers;
use mov_base::{List, One};
use row_program::Feature;

/// A tree of bounds, read in contracts as plain data by `plain_of`.
#[derive(Debug, Drop)]
pub enum Tree {
    /// A kid for each goal of the node's cover, in their order.
    Split(List<Tree>),
    /// The half where the feature is at most the value, and the half where it is greater.
    Branch(Feature, u32, One<Tree>, One<Tree>),
    /// The multipliers that rule the node out.
    Cut(Multipliers),
}

/// How many nodes the tree has.
#[cycle(count)]
#[tactic(auto, using(crate::proofs::Shapes::size_Split, crate::proofs::Shapes::size_Branch, crate::proofs::Shapes::size_Cut))]
pub(crate) fn count(tree: &Tree) -> u32
    requires few { size (plain_of tree.now) < 2 ^ 32 }
    ensures { result ≡ size (plain_of tree.now) }
{
    match tree {
        Tree::Split(kids) => 1 + count_all(kids.as_slice()),
        Tree::Branch(_, _, low, high) => 1 + count(low.get()) + count(high.get()),
        Tree::Cut(_) => 1,
    }
}

/// How many nodes the trees have together.
#[cycle(count)]
fn count_all(kids: &[Tree]) -> u32
    requires few { sum_by (λ kid. size (plain_of kid)) kids.now < 2 ^ 32 }
    ensures { result ≡ sum_by (λ kid. size (plain_of kid)) kids.now }
{
    let mut total = 0;
    for kid in kids {
        total += count(kid);
    }
    total
}

/// How deep the tree is.
#[cycle(depth)]
#[tactic(auto, using(crate::proofs::Shapes::height_Split, crate::proofs::Shapes::height_Branch, crate::proofs::Shapes::height_Cut))]
pub(crate) fn deepest(tree: &Tree) -> u32
    requires shallow { height (plain_of tree.now) < 2 ^ 32 }
    ensures { result ≡ height (plain_of tree.now) }
{
    match tree {
        Tree::Split(kids) => 1 + deepest_of(kids.as_slice()),
        Tree::Branch(_, _, low, high) => 1 + deepest(low.get()).max(deepest(high.get())),
        Tree::Cut(_) => 1,
    }
}

/// How deep the deepest of the trees is.
#[cycle(depth)]
#[tactic(auto, using(crate::proofs::Shapes::highest_kid, crate::proofs::Shapes::highest_more))]
fn deepest_of(kids: &[Tree]) -> u32
    requires shallow { highest (kids_of (map plain_of kids.now)) < 2 ^ 32 }
    ensures { result ≡ highest (kids_of (map plain_of kids.now)) }
{
    let mut greatest = 0;
    for kid in kids {
        greatest = deepest(kid).max(greatest);
    }
    greatest
}
