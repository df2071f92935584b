// Whether a tree is within the limits of the grammar.
ghost use Rattle.std.specs.Prelude.{◌↔◌, ◌≤◌, All, IsTrue};
ghost use Rattle.bound_tree.specs.Lines.{BranchBy, lines_of};
ghost use Rattle.bound_tree.specs.Nodes.{size, height};
ghost use Rattle.bound_tree.specs.Plain.{plain_of};
ghost use Rattle.cert_text.specs.CertText.{LineFits};

use crate::limits::{GREATEST_KEY, GREATEST_VALUE, LAST_ENTERED, LAST_LEFT, MOST_MULTIPLIERS};
use bound_tree::{BoundTree, MOST_DEPTH, MOST_NODES, Tree};
use row_program::{Feature, MOST_KIDS};

/// Whether a tree is within its limits.
#[tactic(auto, using(bound_tree::proofs::Laws::size_some))]
pub(crate) fn bound_fits(tree: &BoundTree) -> bool
    ensures { IsTrue result
        ↔ (All LineFits (lines_of tree.now) × (height tree.now ≤ MOST_DEPTH) × (size tree.now ≤ MOST_NODES)) }
{
    let small = tree.depth() <= MOST_DEPTH && tree.nodes() <= MOST_NODES;
    small && tree_fits(tree.at(0))
}

/// Whether each line of the tree is within its limits.
#[cycle(trees)]
#[tactic(auto, using(crate::proofs::Fitting::fits_Split, crate::proofs::Fitting::fits_Branch, crate::proofs::Fitting::fits_Cut, bound_tree::proofs::Shapes::size_Split, bound_tree::proofs::Shapes::size_Branch))]
fn tree_fits(tree: &Tree) -> bool
    ensures { IsTrue result ↔ All LineFits (lines_of (plain_of tree.now)) }
{
    match tree {
        Tree::Split(kids) => kids.len() <= MOST_KIDS && trees_fit(kids.as_slice()),
        Tree::Branch(feature, value, low, high) => {
            branch_fits(*feature, *value) && halves_fit(low.get(), high.get())
        }
        Tree::Cut(multipliers) => multipliers.as_slice().len() <= MOST_MULTIPLIERS,
    }
}

/// Whether each line of both trees is.
#[cycle(trees)]
fn halves_fit(low: &Tree, high: &Tree) -> bool
    ensures { IsTrue result
        ↔ (All LineFits (lines_of (plain_of low.now)) × All LineFits (lines_of (plain_of high.now))) }
{
    tree_fits(low) && tree_fits(high)
}

/// Whether each line of each tree is.
#[cycle(trees)]
fn trees_fit(trees: &[Tree]) -> bool
    ensures { IsTrue result ↔ All (λ tree. All LineFits (lines_of (plain_of tree))) trees.now }
{
    for tree in trees {
        if !tree_fits(tree) {
            return false;
        }
    }
    true
}

/// Whether the numbers of a branch are within their limits.
fn branch_fits(feature: Feature, value: u32) -> bool
    ensures { IsTrue result ↔ LineFits (BranchBy feature value) }
{
    match feature {
        Feature::From(key) => key <= GREATEST_KEY && value <= GREATEST_VALUE,
        Feature::Arc(u, x) => {
            let places = u <= LAST_LEFT && 1 <= x && x <= LAST_ENTERED;
            places && value <= GREATEST_VALUE
        },
    }
}
