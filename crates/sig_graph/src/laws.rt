// What holds of paths, flows and walks by themselves.
ghost use Rattle.std.specs.Prelude.{◌≡◌, ℕ, ◌<◌, ◌≤◌, All, List, length, count_by, ℤ, pos, ◌-ℤ◌, ◌*ℤ◌, ◌≤ℤ◌};
ghost use Rattle.mov_base.specs.Sums.{sum_z};
ghost use Rattle.sig_graph.specs.Flows.{IsFlow, flow_at, flow_sum};
ghost use Rattle.sig_graph.specs.Paths.{IsBest, IsPath, arc_at, arc_total, path_arcs, path_sum};
ghost use Rattle.sig_graph.specs.Rows.{is_first_from, leads_over, one_where, row_weights};
ghost use Rattle.sig_graph.specs.Walks.{AreWalks, flow_of, path_uses, split_of, uses_of};

/// Each number below that of all arcs is the number of one arc.
pub fn arcs_are_numbered()
    ensures each { (m k : ℕ) → k < arc_total m → (u : ℕ) × (x : ℕ) × (u < x) × (x ≤ m) × (arc_at m u x ≡ k) }
    ensures apart { (m u x a b : ℕ) → u < x → x ≤ m → a < b → b ≤ m →
        arc_at m u x ≡ arc_at m a b → (u ≡ a) × (x ≡ b) }
{}

/// One number is the best of a place.
pub fn best_is_one()
    ensures { (m : ℕ) (weights : List ℤ) (u : ℕ) (a b : ℤ) → IsBest m weights u a → IsBest m weights u b → a ≡ b }
{}

/// A flow brings what the paths bring into which it is split, and so at most its total times the best path. Numbers of
/// one denominator count by their numerators, and so does the total.
pub fn flow_brings_what_its_paths_bring()
    ensures paths { (m : ℕ) (flow : List ℕ) (total : ℕ) (weights : List ℤ) → IsFlow m flow total →
        flow_sum flow weights ≡ sum_z (λ path. path_sum m weights 0 path) (split_of m flow total) }
    ensures best { (m : ℕ) (flow : List ℕ) (total : ℕ) (weights : List ℤ) (best : ℤ) →
        IsFlow m flow total → IsBest m weights 0 best → flow_sum flow weights ≤ℤ (pos total *ℤ best) }
{}

/// Paths make a flow, whose total is their number and which brings what they bring together.
pub fn paths_make_a_flow()
    ensures flow { (m : ℕ) (paths : List (List ℕ)) → All (IsPath m) paths →
        IsFlow m (flow_of m paths) (length paths) }
    ensures uses { (m : ℕ) (paths : List (List ℕ)) (u x : ℕ) → u < x → x ≤ m →
        flow_at m (flow_of m paths) u x ≡ uses_of paths u x }
    ensures sum { (m : ℕ) (weights : List ℤ) (paths : List (List ℕ)) → All (IsPath m) paths →
        flow_sum (flow_of m paths) weights ≡ sum_z (λ path. path_sum m weights 0 path) paths }
{}

/// A path uses an arc at most once.
pub fn paths_use_arcs_once()
    ensures { (m : ℕ) (path : List ℕ) (u x : ℕ) → IsPath m path → path_uses u x path ≤ 1 }
{}

/// No arc of a flow has more than its total.
pub fn arcs_have_at_most_the_total()
    ensures { (m : ℕ) (flow : List ℕ) (total : ℕ) → IsFlow m flow total →
        (u x : ℕ) → u < x → x ≤ m → flow_at m flow u x ≤ total }
{}

/// The paths into which a flow is split are walks, each along the arc with the least end that has flow left, and no
/// other paths are.
pub fn splits_are_walks()
    ensures walks { (m : ℕ) (flow : List ℕ) (total : ℕ) → AreWalks m flow (split_of m flow total) }
    ensures alone { (m : ℕ) (flow : List ℕ) (paths : List (List ℕ)) →
        AreWalks m flow paths → paths ≡ split_of m flow (length paths) }
{}

/// In a path, one arc leads from before the place i to the place j exactly where j is the first place of the path that
/// is at least i. So a row's weight of a ballot is the sum of weights of arcs over its signature.
pub fn rows_by_arcs()
    ensures arcs { (m i j : ℕ) (path : List ℕ) → 1 ≤ i → i ≤ j → IsPath m path →
        count_by (leads_over i j) (path_arcs 0 path) ≡ one_where (is_first_from i path j) }
    ensures weights { (m i j : ℕ) (path : List ℕ) → 1 ≤ i → i ≤ j → IsPath m path →
        path_sum m (row_weights m i j) 0 path
        ≡ pos (one_where (is_first_from i path j)) -ℤ pos (one_where (is_first_from i path i)) }
{}
