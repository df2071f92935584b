// The multipliers of a tree.
ghost use Rattle.std.specs.Prelude.{◌≤◌, All};
ghost use Rattle.bound_tree.specs.Nodes.{height};
ghost use Rattle.bound_tree.specs.Plain.{plain_of};
ghost use Rattle.bound_tree.specs.declared.bound.TheConstants.{MOST_DEPTH};
ghost use Rattle.margin_solve.specs.Numbers.{AreNarrow};

use bound_tree::{BoundTree, Tree};

/// Reads a bound tree: it isn't too deep, and none of its multipliers is wide.
#[tactic(auto, using(crate::proofs::NarrowTrees::some_nodes))]
pub(crate) fn tree_read(bound: &BoundTree)
    ensures narrow { AreNarrow bound.now }
    ensures shallow { height bound.now ≤ MOST_DEPTH }
{
    let _ = bound.depth();
    numbers_read(bound.at(0));
}

/// Reads the multipliers of a tree, none of which is wide.
#[cycle(numbers)]
#[tactic(auto, using(crate::proofs::NarrowTrees::narrow_split, crate::proofs::NarrowTrees::narrow_branch, crate::proofs::NarrowTrees::narrow_cut))]
fn numbers_read(tree: &Tree)
    ensures { AreNarrow (plain_of tree.now) }
{
    match tree {
        Tree::Split(kids) => all_read(kids.as_slice()),
        Tree::Branch(_, _, low, high) => {
            numbers_read(low.get());
            numbers_read(high.get());
        }
        Tree::Cut(multipliers) => {
            let _ = multipliers.as_slice();
        }
    }
}

/// The same of several trees.
#[cycle(numbers)]
fn all_read(kids: &[Tree])
    ensures { All (λ kid. AreNarrow (plain_of kid)) kids.now }
{
    for kid in kids {
        numbers_read(kid);
    }
}
