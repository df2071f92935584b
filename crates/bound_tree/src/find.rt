// Finding a node by its number.
ghost use Rattle.std.specs.Prelude.{◌≡◌, ◌+◌, ◌<◌, ◌^◌, ◌↔◌, IfOk, IfErr, IsOk, sum_by, map};
ghost use Rattle.bound_tree.specs.Plain.{plain_of, kids_of};
ghost use Rattle.bound_tree.specs.Nodes.{size, height, highest};
ghost use Rattle.bound_tree.specs.Places.{IsPlace, IsPlaceIn};

use crate::Tree;

/// A node with its depth.
#[derive(Clone, Copy)]
pub(crate) struct Place<'a> {
    pub tree: &'a Tree,
    pub depth: u32,
}

/// The node with this number in a tree whose topmost node has this depth, or what is left of the number behind the tree.
#[cycle(find)]
#[tactic(auto, using(crate::proofs::Shapes::size_Split, crate::proofs::Shapes::size_Branch, crate::proofs::Shapes::size_Cut, crate::proofs::Shapes::height_Split, crate::proofs::Shapes::height_Branch))]
pub(crate) fn find<'a>(tree: &'a Tree, number: u32, depth: u32) -> Result<Place<'a>, u32>
    requires shallow { depth + height (plain_of tree.now) < 2 ^ 32 }
    ensures found { IfOk result
        (λ place. IsPlace (plain_of tree.now) depth number (plain_of place.tree.now) place.depth) }
    ensures missed { IfErr result (λ rest. number ≡ size (plain_of tree.now) + rest) }
    ensures when { IsOk result ↔ (number < size (plain_of tree.now)) }
{
    if number == 0 {
        return Ok(Place { tree, depth });
    }
    match tree {
        Tree::Split(kids) => find_among(kids.as_slice(), number - 1, depth + 1),
        Tree::Branch(_, _, low, high) => match find(low.get(), number - 1, depth + 1) {
            Ok(place) => Ok(place),
            Err(rest) => find(high.get(), rest, depth + 1),
        },
        Tree::Cut(_) => Err(number - 1),
    }
}

/// The same in several trees, numbered from the first on.
#[cycle(find)]
#[tactic(auto, using(crate::proofs::Shapes::highest_kid))]
fn find_among<'a>(kids: &'a [Tree], number: u32, depth: u32) -> Result<Place<'a>, u32>
    requires shallow { depth + highest (kids_of (map plain_of kids.now)) < 2 ^ 32 }
    ensures found { IfOk result
        (λ place. IsPlaceIn (kids_of (map plain_of kids.now)) depth number (plain_of place.tree.now) place.depth) }
    ensures missed { IfErr result (λ rest. number ≡ sum_by (λ kid. size (plain_of kid)) kids.now + rest) }
    ensures when { IsOk result ↔ (number < sum_by (λ kid. size (plain_of kid)) kids.now) }
{
    let mut left = number;
    for kid in kids {
        match find(kid, left, depth) {
            Ok(place) => return Ok(place),
            Err(rest) => left = rest,
        }
    }
    Err(left)
}
