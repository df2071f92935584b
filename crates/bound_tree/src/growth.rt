// Putting a tree in the place of a node.
ghost use Rattle.std.specs.Prelude.{◌≡◌, ◌+◌, ◌<◌, ◌^◌, ◌↔◌, IfOk, IfErr, OnOk, OnErr, IsOk, sum_by, map};
ghost use Rattle.bound_tree.specs.Plain.{plain_of, kids_of};
ghost use Rattle.bound_tree.specs.Nodes.{size, height, highest};
ghost use Rattle.bound_tree.specs.Places.{IsPlace, IsPlaceIn};
ghost use Rattle.bound_tree.specs.Growth.{replaced, replaced_in};

use crate::Tree;
use mov_base::List;
use std::mem;

/// Exchanges the node with this number for `new`, in a tree whose topmost node has this depth, and gives the node's depth;
/// or what is left of the number behind the tree.
#[cycle(put)]
#[tactic(auto, using(crate::proofs::Shapes::size_Split, crate::proofs::Shapes::size_Branch, crate::proofs::Shapes::size_Cut, crate::proofs::Shapes::height_Split, crate::proofs::Shapes::height_Branch))]
pub(crate) fn put(tree: &mut Tree, number: u32, depth: u32, new: &mut Tree) -> Result<u32, u32>
    requires shallow { depth + height (plain_of tree.old) < 2 ^ 32 }
    ensures grown { OnOk result (plain_of tree.new ≡ replaced number (plain_of new.old) (plain_of tree.old)) }
    ensures found { IfOk result (λ deep. IsPlace (plain_of tree.old) depth number (plain_of new.new) deep) }
    ensures missed { IfErr result (λ rest. number ≡ size (plain_of tree.old) + rest) }
    ensures kept { OnErr result (new.new ≡ new.old) }
    ensures unchanged { OnErr result (tree.new ≡ tree.old) }
    ensures when { IsOk result ↔ (number < size (plain_of tree.old)) }
{
    if number == 0 {
        mem::swap(tree, new);
        return Ok(depth);
    }
    match tree {
        Tree::Split(kids) => put_among(kids, number - 1, depth + 1, new),
        Tree::Branch(_, _, low, high) => match put(low.get_mut(), number - 1, depth + 1, new) {
            Ok(deep) => Ok(deep),
            Err(rest) => put(high.get_mut(), rest, depth + 1, new),
        },
        Tree::Cut(_) => Err(number - 1),
    }
}

/// The same in several trees, numbered from the first on.
#[cycle(put)]
#[tactic(auto, using(crate::proofs::Shapes::size_kid, crate::proofs::Shapes::size_more, crate::proofs::Shapes::highest_kid, crate::proofs::Shapes::kid_kept))]
fn put_among(kids: &mut List<Tree>, number: u32, depth: u32, new: &mut Tree) -> Result<u32, u32>
    requires shallow { depth + highest (kids_of (map plain_of kids.old)) < 2 ^ 32 }
    ensures grown { OnOk result (kids_of (map plain_of kids.new)
        ≡ replaced_in number (plain_of new.old) (kids_of (map plain_of kids.old))) }
    ensures found { IfOk result
        (λ deep. IsPlaceIn (kids_of (map plain_of kids.old)) depth number (plain_of new.new) deep) }
    ensures missed { IfErr result (λ rest. number ≡ sum_by (λ kid. size (plain_of kid)) kids.old + rest) }
    ensures kept { OnErr result (new.new ≡ new.old) }
    ensures unchanged { OnErr result (kids.new ≡ kids.old) }
    ensures when { IsOk result ↔ (number < sum_by (λ kid. size (plain_of kid)) kids.old) }
{
    let mut left = number;
    for i in 0..kids.len() {
        match put(kids.item_mut(i), left, depth, new) {
            Ok(deep) => return Ok(deep),
            Err(rest) => left = rest,
        }
    }
    Err(left)
}
