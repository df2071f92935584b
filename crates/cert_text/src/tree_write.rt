// Writing a tree.
ghost use Rattle.std.specs.Prelude.{◌≡◌, ◌++◌, ◌∷◌, [], map, decimal, OnOk};
ghost use Rattle.std.specs.List.{flat_map};
ghost use Rattle.bound_tree.specs.Lines.{BranchBy};
ghost use Rattle.bound_tree.specs.Plain.{plain_of};
ghost use Rattle.text_lines.specs.Words.{line_text};
ghost use Rattle.cert_text.specs.CertText.{tree_words, tree_text};

use bound_tree::Tree;
use mov_base::Memory;
use row_program::Feature;
use text_lines::written::{push_list, push_number, push_one, push_two};

/// Adds the lines of a tree.
#[cycle(trees)]
#[tactic(auto, using(crate::proofs::Shapes::printed_Split, crate::proofs::Shapes::printed_Branch, crate::proofs::Shapes::printed_Cut, bound_tree::proofs::Shapes::size_Split, bound_tree::proofs::Shapes::size_Branch))]
pub(crate) fn push_tree(out: &mut Vec<u8>, tree: &Tree) -> Result<(), Memory>
    ensures { OnOk result (out.new.items ≡ out.old.items ++ tree_text (plain_of tree.now)) }
{
    match tree {
        Tree::Split(kids) => {
            push_one(out, b"split", kids.len() as u64)?;
            push_trees(out, kids.as_slice())
        }
        Tree::Branch(feature, value, low, high) => {
            push_branch(out, *feature, *value)?;
            push_tree(out, low.get())?;
            push_tree(out, high.get())
        }
        Tree::Cut(multipliers) => push_list(out, b"cut", multipliers.as_slice()),
    }
}

/// Adds the lines of trees, one after another.
#[cycle(trees)]
fn push_trees(out: &mut Vec<u8>, trees: &[Tree]) -> Result<(), Memory>
    ensures { OnOk result (out.new.items ≡ out.old.items ++ flat_map (λ tree. tree_text (plain_of tree)) trees.now) }
{
    for tree in trees {
        push_tree(out, tree)?;
    }
    Ok(())
}

/// Adds the line of a branch.
fn push_branch(out: &mut Vec<u8>, feature: Feature, value: u32) -> Result<(), Memory>
    ensures { OnOk result (out.new.items ≡ out.old.items ++ line_text (tree_words (BranchBy feature value))) }
{
    match feature {
        Feature::From(key) => push_two(out, b"branch from", key, u64::from(value)),
        Feature::Arc(u, x) => {
            out.extend_from_slice(b"branch arc")?;
            push_number(out, u)?;
            push_number(out, x)?;
            push_number(out, value)?;
            out.push(b'\n')?;
            Ok(())
        }
    }
}
