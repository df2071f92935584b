// The arcs of the graph of a suffix, and their numbers.
ghost use Rattle.std.specs.Prelude.{◌≡◌, ◌<◌, ◌≤◌, length, slice_get};
ghost use Rattle.sig_graph.specs.Paths.{arc_total, arc_at, arcs_of};

/// How many arcs the graph of m places has: m (m + 1) / 2.
pub fn arc_count(m: u8) -> usize
    ensures number { result ≡ arc_total m }
    ensures arcs { result ≡ length (arcs_of m) }
{
    let m = usize::from(m);
    m * (m + 1) / 2
}

/// The number, from 0, of the arc from u to x. Arcs are ordered by where they begin, then by where they end.
pub fn arc_index(m: u8, u: u8, x: u8) -> usize
    requires begins { u < x }
    requires ends { x ≤ m }
    ensures number { result ≡ arc_at m u x }
    ensures within { result < arc_total m }
    ensures arc { slice_get (arcs_of m) result ≡ Some (u, x) }
{
    let u = usize::from(u);
    u * (2 * usize::from(m) + 1 - u) / 2 + usize::from(x) - u - 1
}
