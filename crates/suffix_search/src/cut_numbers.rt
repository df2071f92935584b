// The node of a cut.
ghost use Rattle.std.specs.Prelude.{◌≡◌, ◌<◌, ◌≤◌, ◌↔◌, IfErr, IfOk, IsOk, map};
ghost use Rattle.bound_tree.specs.Nodes.{cut_count, cut_count_all, size, size_all};
ghost use Rattle.bound_tree.specs.Plain.{kids_of, plain_of};
ghost use Rattle.bound_tree.specs.declared.bound.TheConstants.{MOST_NODES};
ghost use Rattle.search_theory.specs.Numbers.{cut_number as number_of, cut_number_in};

use bound_tree::{BoundTree, Tree};

/// What was walked past.
#[derive(Clone, Copy)]
struct Passed {
    nodes: u32,
    cuts: u32,
}

/// The number of the node that is cut number `i`, both from 0 in preorder.
#[tactic(auto, using(crate::proofs::Walking::some_nodes))]
pub(crate) fn cut_number(tree: &BoundTree, i: u32) -> u32
    requires { i < cut_count tree.now }
    ensures value { result ≡ number_of i tree.now }
    ensures within { result < size tree.now }
{
    let nodes = tree.nodes();
    match walk(tree.at(0), i) {
        Ok(number) => number,
        Err(_) => unreachable!(),
    }
}

/// The number of the node that is cut number `i` of the tree, or all that there is in it.
#[cycle(walk)]
#[tactic(auto, using(crate::proofs::Walking::of_split, crate::proofs::Walking::of_branch, crate::proofs::Walking::of_cut))]
fn walk(tree: &Tree, i: u32) -> Result<u32, Passed>
    requires few { size (plain_of tree.now) ≤ MOST_NODES }
    ensures found { IfOk result (λ number. number ≡ number_of i (plain_of tree.now)) }
    ensures within { IfOk result (λ number. number < size (plain_of tree.now)) }
    ensures nodes { IfErr result (λ passed. passed.nodes ≡ size (plain_of tree.now)) }
    ensures cuts { IfErr result (λ passed. passed.cuts ≡ cut_count (plain_of tree.now)) }
    ensures when { IsOk result ↔ (i < cut_count (plain_of tree.now)) }
{
    match tree {
        Tree::Split(kids) => match walk_among(kids.as_slice(), i) {
            Ok(number) => Ok(number + 1),
            Err(passed) => Err(Passed {
                nodes: passed.nodes + 1,
                cuts: passed.cuts,
            }),
        },
        Tree::Branch(_, _, low, high) => match walk(low.get(), i) {
            Ok(number) => Ok(number + 1),
            Err(passed) => match walk(high.get(), i - passed.cuts) {
                Ok(number) => Ok(1 + passed.nodes + number),
                Err(more) => Err(Passed {
                    nodes: 1 + passed.nodes + more.nodes,
                    cuts: passed.cuts + more.cuts,
                }),
            },
        },
        Tree::Cut(_) => walk_cut(i),
    }
}

/// The same of a cut.
fn walk_cut(i: u32) -> Result<u32, Passed>
    ensures found { IfOk result (λ number. number ≡ 0) }
    ensures nodes { IfErr result (λ passed. passed.nodes ≡ 1) }
    ensures cuts { IfErr result (λ passed. passed.cuts ≡ 1) }
    ensures when { IsOk result ↔ (i < 1) }
{
    if i == 0 {
        Ok(0)
    } else {
        Err(Passed { nodes: 1, cuts: 1 })
    }
}

/// The same in several trees, numbered from the first on.
#[cycle(walk)]
fn walk_among(kids: &[Tree], i: u32) -> Result<u32, Passed>
    requires few { size_all (kids_of (map plain_of kids.now)) ≤ MOST_NODES }
    ensures found { IfOk result (λ number. number ≡ cut_number_in i (kids_of (map plain_of kids.now))) }
    ensures within { IfOk result (λ number. number < size_all (kids_of (map plain_of kids.now))) }
    ensures nodes { IfErr result (λ passed. passed.nodes ≡ size_all (kids_of (map plain_of kids.now))) }
    ensures cuts { IfErr result (λ passed. passed.cuts ≡ cut_count_all (kids_of (map plain_of kids.now))) }
    ensures when { IsOk result ↔ (i < cut_count_all (kids_of (map plain_of kids.now))) }
{
    let mut passed = Passed { nodes: 0, cuts: 0 };
    for kid in kids {
        match walk(kid, i - passed.cuts) {
            Ok(number) => return Ok(passed.nodes + number),
            Err(more) => {
                passed.nodes += more.nodes;
                passed.cuts += more.cuts;
            }
        }
    }
    Err(passed)
}
