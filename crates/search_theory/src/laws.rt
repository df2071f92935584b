// What follows from the definitions of a search.
ghost use Rattle.std.specs.Prelude.{◌≡◌, ◌<◌, ◌≤◌, ℕ, List};
ghost use Rattle.bound_tree.specs.Plain.{Plain};
ghost use Rattle.bound_tree.specs.declared.bound.TheConstants.{MOST_DEPTH};
ghost use Rattle.goal_rows.specs.Goals.{IsElection};
ghost use Rattle.goal_rows.specs.Nodes.{without_limits};
ghost use Rattle.goal_rows.specs.declared.goals.Goal.TheVariants.{Root as TheRoot};
ghost use Rattle.tree_proofs.specs.Proving.{Proves};
ghost use Rattle.search_theory.specs.Ends.{Ending, IsEnd, IsKnown, Problem};
ghost use Rattle.search_theory.specs.Leaves.{AreMade, Growth, IsFirstLeaf, IsUnderWay, Leaf, MayGrow};
ghost use Rattle.search_theory.specs.Leaves.{growth_tree, kid_nodes, lowest};
ghost use Rattle.search_theory.specs.Spots.{grown, put_at};
ghost use Rattle.search_theory.specs.Trees.{IsTight, top_of};

/// Where the first leaf with the least bound grows, what is known of the tree and its leaves stays, and the least bound
/// doesn't fall.
pub fn a_turn_keeps_what_is_known()
    ensures { (p : Problem) (tree : Plain) (leaves : List Leaf) (i : ℕ) (x : Leaf) (way : Growth) (kids : List Leaf) →
        IsElection p.election → IsKnown p → IsUnderWay p tree leaves → IsFirstLeaf p.election i leaves x →
        x.bound < top_of p.election → x.depth < MOST_DEPTH → MayGrow p.election way x.node →
        AreMade p x (kid_nodes p.election way x.node) kids →
        IsUnderWay p (grown i (growth_tree way kids) tree) (put_at i (λ y. kids) leaves)
        × (lowest p.election leaves ≤ lowest p.election (put_at i (λ y. kids) leaves)) }
{}

/// The tree of a search proves the least bound of its leaves, and is tight.
pub fn a_search_proves_its_least_bound()
    ensures proof { (p : Problem) (tree : Plain) (leaves : List Leaf) →
        IsElection p.election → IsKnown p → IsUnderWay p tree leaves →
        Proves p.election (lowest p.election leaves) (without_limits TheRoot) tree }
    ensures tight { (p : Problem) (tree : Plain) (leaves : List Leaf) →
        IsUnderWay p tree leaves → IsTight p.election tree }
{}

/// Of a tree there is one way at most in which a search ends, and one least bound.
pub fn a_search_has_one_end()
    ensures { (p : Problem) (tree : Plain) (t u : ℕ) (one other : Ending) →
        IsElection p.election → IsKnown p → IsEnd p tree t one → IsEnd p tree u other → (t ≡ u) × (one ≡ other) }
{}
