// The greatest sum of weights over a path.
ghost use Rattle.std.specs.Prelude.{◌≡◌, ℕ, ◌+◌, ◌*◌, ◌≤◌, ◌<◌, All, length, slice_index_or, pos, ◌+ℤ◌, ◌≤ℤ◌};
ghost use Rattle.sig_graph.specs.Paths.{arc_total, arcs_before, IsBest, IsSmallWeight};
ghost use Rattle.sig_graph.specs.Bests.{IsBetter, IsDone};

/// The least size that is too large for the weight of an arc, 2^80.
pub const WEIGHT_LIMIT: u128 = 1_208_925_819_614_629_174_706_176;

/// The greatest sum of weights over all paths from the start, the empty one included. `weights` has a weight for each
/// arc, and `best` a cell for the start and for each place, which takes the greatest sum over the paths from there. It
/// takes no memory.
pub fn best_path(m: u8, weights: &[i128], best: &mut [i128]) -> i128
    requires weights { length weights.now ≡ arc_total m }
    requires small { All IsSmallWeight weights.now }
    requires cells { length best.old ≡ m + 1 }
    ensures best { IsBest m weights.now 0 result }
    ensures at_least { pos 0 ≤ℤ result }
    ensures at_most { result ≤ℤ pos (m * WEIGHT_LIMIT) }
    ensures cells { (u : ℕ) → u ≤ m → IsBest m weights.now u (slice_index_or best.new u (pos 0)) }
{
    let last = usize::from(m);
    best[last] = 0;
    let mut first = weights.len();
    for u in (0..last).rev() {
        first -= last - u;
        best[u] = best_from(last, u, first, weights, best);
    }
    best[0]
}

/// The greatest sum over the paths from u, where the arcs out of it have the numbers from `first` on and the cells
/// after u are done.
fn best_from(m: usize, u: usize, first: usize, weights: &[i128], best: &[i128]) -> i128
    requires place { u < m }
    requires short { m < 256 }
    requires first { first ≡ arcs_before m u }
    requires weights { length weights.now ≡ arc_total m }
    requires small { All IsSmallWeight weights.now }
    requires cells { length best.now ≡ m + 1 }
    requires later { (k : ℕ) → u < k → k ≤ m → IsDone m weights.now k (slice_index_or best.now k (pos 0)) }
    ensures { IsDone m weights.now u result }
{
    let mut value = 0;
    for x in u + 1..m + 1 {
        value = better(value, weights[first + (x - u - 1)], best[x]);
    }
    value
}

/// The greater of a value and the sum of a weight and what comes after it.
fn better(value: i128, weight: i128, rest: i128) -> i128
    requires small { IsSmallWeight weight }
    requires low { pos 0 ≤ℤ rest }
    requires high { rest ≤ℤ pos (256 * WEIGHT_LIMIT) }
    ensures { IsBetter value (weight +ℤ rest) result }
{
    let via = weight + rest;
    if value < via { via } else { value }
}
