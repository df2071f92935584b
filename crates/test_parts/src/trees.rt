// Multipliers and trees, on values worked out by hand, and growth up to its limits.
ghost use Rattle.std.specs.Prelude.{IsTrue};
ghost use Rattle.bound_tree.specs.Places.{IsCut};

use bound_tree::{
    BoundTree, GrowFault, MOST_DEPTH, MOST_NODES, MultiplierLists, Multipliers, Tree,
};
use mov_base::{Memory, One};
use row_program::Feature;
use std::alloc::Global;
use std::test::Fail;

/// Multipliers of these numbers.
fn multipliers(alloc: Global, numbers: &[u32]) -> Result<Multipliers, Memory> {
    let mut multipliers = Multipliers::new(alloc);
    for number in numbers {
        multipliers.push(u64::from(*number))?;
    }
    Ok(multipliers)
}

/// So many kids without multipliers.
fn plain_kids(alloc: Global, count: u32) -> Result<MultiplierLists, Memory> {
    let mut kids = MultiplierLists::new(alloc);
    for _ in 0..count {
        kids.push(Multipliers::new(alloc))?;
    }
    Ok(kids)
}

/// The multipliers of a node, if it is a cut.
fn numbers(tree: &BoundTree, node: u32) -> Option<&[u64]> {
    if node >= tree.nodes() {
        return None;
    }
    match tree.at(node) {
        Tree::Cut(multipliers) => Some(multipliers.as_slice()),
        _ => None,
    }
}

/// Whether the node is a cut.
fn is_cut(tree: &BoundTree, node: u32) -> bool
    ensures { IsTrue result → IsCut tree.now node }
{
    if node >= tree.nodes() {
        return false;
    }
    match tree.at(node) {
        Tree::Cut(_) => true,
        _ => false,
    }
}

/// Grows a split of so many kids without multipliers at a cut, and says how that went.
fn split_at(
    alloc: Global,
    tree: &mut BoundTree,
    node: u32,
    count: u32,
) -> Result<&'static str, Memory> {
    let kids = plain_kids(alloc, count)?;
    if !is_cut(tree, node) {
        return Ok("not a cut");
    }
    match tree.grow_split(node, kids) {
        Ok(()) => Ok("grown"),
        Err(GrowFault::TooManyNodes) => Ok("too many nodes"),
        Err(GrowFault::TooDeep) => Ok("too deep"),
        Err(GrowFault::Memory) => Ok("memory"),
    }
}

/// A tree that has a split with three kids on top, the first of which is a branch.
fn split_with_a_branch(alloc: Global) -> Result<BoundTree, Fail> {
    let mut tree = BoundTree::leaf(alloc, Multipliers::new(alloc));
    let mut kids = MultiplierLists::new(alloc);
    kids.push(multipliers(alloc, &[0, 1])?)?;
    kids.push(multipliers(alloc, &[1, 0])?)?;
    kids.push(multipliers(alloc, &[0, 1])?)?;
    if is_cut(&tree, 0) && tree.grow_split(0, kids).is_err() {
        return Err("no split".into());
    }
    let low = multipliers(alloc, &[0, 1, 0])?;
    let high = multipliers(alloc, &[0, 0, 1])?;
    if is_cut(&tree, 1) && tree.grow_branch(1, Feature::From(7), 0, low, high).is_err() {
        return Err("no branch".into());
    }
    Ok(tree)
}

#[test]
fn multipliers_are_kept_and_copied(rt: HostRuntime) -> Result<(), Fail> {
    let alloc = rt.alloc();
    let small = Multipliers::from_vec(Vec::from_array(alloc, [3u64, 9_223_372_036_854_775_807])?);
    assert_eq!(rt; small.len(), 2);
    let mut lists = MultiplierLists::new(alloc);
    lists.push(small.copy()?)?;
    let copies = lists.copy()?;
    let first = copies.as_slice().first().ok_or("no first list")?;
    assert_eq!(rt; first.as_slice(), [3, 9_223_372_036_854_775_807].as_slice());
    assert_eq!(rt; small.into_vec().as_slice(), first.as_slice());
    Ok(())
}

#[test]
#[tactic(auto, using(bound_tree::proofs::Laws::size_branch, bound_tree::proofs::Laws::height_branch))]
fn trees_with_a_branch(rt: HostRuntime) -> Result<(), Fail> {
    let alloc = rt.alloc();
    let tree = split_with_a_branch(alloc)?;
    assert_eq!(rt; (tree.nodes(), tree.depth()), (6, 3));
    for (node, depth, want) in [
        (0, 1, None),
        (1, 2, None),
        (2, 3, Some([0u64, 1, 0].as_slice())),
        (3, 3, Some([0u64, 0, 1].as_slice())),
        (4, 2, Some([1u64, 0].as_slice())),
        (5, 2, Some([0u64, 1].as_slice())),
    ] {
        assert_eq!(rt; numbers(&tree, node), want, "at {node}");
        if node < tree.nodes() {
            assert_eq!(rt; tree.node_depth(node), depth, "at {node}");
        }
    }
    let Tree::Split(kids) = tree.at(0) else {
        return Err("no split on top".into());
    };
    let Some(Tree::Branch(feature, value, _, _)) = kids.as_slice().first() else {
        return Err("no branch".into());
    };
    assert_eq!(rt; (kids.len(), *feature, *value), (3, Feature::From(7), 0));

    let low = One::new(alloc, Tree::Cut(multipliers(alloc, &[1])?))?;
    let high = One::new(alloc, Tree::Cut(multipliers(alloc, &[0])?))?;
    let made = BoundTree::from_tree(alloc, Tree::Branch(Feature::Arc(0, 1), 2, low, high));
    assert_eq!(rt; (made.nodes(), made.depth()), (3, 2));
    assert_eq!(rt; numbers(&made, 2), Some([0u64].as_slice()));
    Ok(())
}

#[test]
fn growth_up_to_the_limits(rt: HostRuntime) -> Result<(), Fail> {
    let alloc = rt.alloc();
    let mut chain = BoundTree::leaf(alloc, Multipliers::new(alloc));
    for node in 0..255 {
        assert_eq!(rt; split_at(alloc, &mut chain, node, 1)?, "grown");
    }
    for (kids, want) in [(1, "too deep"), (99_745, "too many nodes"), (0, "grown")] {
        assert_eq!(rt; split_at(alloc, &mut chain, 255, kids)?, want);
        assert_eq!(rt; (chain.nodes(), chain.depth()), (256, MOST_DEPTH));
    }
    let mut broad = BoundTree::leaf(alloc, Multipliers::new(alloc));
    assert_eq!(rt; split_at(alloc, &mut broad, 0, 100_000)?, "too many nodes");
    assert_eq!(rt; split_at(alloc, &mut broad, 0, 99_999)?, "grown");
    assert_eq!(rt; (broad.nodes(), broad.depth()), (MOST_NODES, 2));
    assert_eq!(rt; split_at(alloc, &mut broad, 99_999, 1)?, "too many nodes");
    assert_eq!(rt; split_at(alloc, &mut broad, 99_999, 0)?, "grown");
    Ok(())
}
