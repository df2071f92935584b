// The paths that a flow is made of.
ghost use Rattle.std.specs.Prelude.{◌≡◌, ℕ, ◌<◌, ◌≤◌, [], All, IfOk, IfSome, IfNone, length};
ghost use Rattle.sig_graph.specs.Flows.{IsFlow, flow_at};
ghost use Rattle.sig_graph.specs.Paths.{IsPath, arc_total};
ghost use Rattle.sig_graph.specs.Walks.{IsNext, IsWalk, flow_after, split_of, uses_of};

use crate::arc_index;
use crate::flows::flow_on;
use mov_base::{List, Memory};
use std::alloc::Global;

/// Places of a suffix, from 1, each after the one before it.
pub type Path = List<u8>;

/// Paths, one after another.
pub type PathList = List<Path>;

/// As many paths as the total of a flow, which together use each arc as often as the flow says: walks from the start,
/// each along the arc with the least end that has flow left, until no arc out of the place has. Each takes 1 from its
/// arcs. Once no arc out of the start has flow left, the paths are empty.
pub fn split_flow(alloc: Global, m: u8, flow: &[u32], total: u32) -> Result<PathList, Memory>
    requires { IsFlow m flow.now total }
    ensures split { IfOk result (λ paths. paths ≡ split_of m flow.now total) }
    ensures number { IfOk result (λ paths. length paths ≡ total) }
    ensures paths { IfOk result (All (IsPath m)) }
    ensures uses { IfOk result (λ paths. (u x : ℕ) → u < x → x ≤ m → uses_of paths u x ≡ flow_at m flow.now u x) }
{
    let mut left = Vec::from_slice(alloc, flow)?;
    take_walks(alloc, m, &mut left, total)
}

/// So many walks, one after another, each in what the ones before it leave.
fn take_walks(alloc: Global, m: u8, left: &mut [u32], count: u32) -> Result<PathList, Memory>
    requires { length left.old ≡ arc_total m }
    ensures { IfOk result (λ paths. paths ≡ split_of m left.old count) }
{
    let mut paths = List::new(alloc);
    for _taken in 0..count {
        let path = next_walk(alloc, m, left)?;
        take_path(m, left, path.as_slice());
        paths.push(path)?;
    }
    Ok(paths)
}

/// The next walk from the start: on to the next place, until no arc out of the place has flow left.
fn next_walk(alloc: Global, m: u8, left: &[u32]) -> Result<Path, Memory>
    requires { length left.now ≡ arc_total m }
    ensures { IfOk result (IsWalk m left.now 0) }
{
    let mut path = List::new(alloc);
    let mut from = 0;
    while let Some(to) = next_place(m, left, from) {
        path.push(to)?;
        from = to;
    }
    Ok(path)
}

/// The least place to which an arc from here with flow left leads, where there is one.
fn next_place(m: u8, left: &[u32], from: u8) -> Option<u8>
    requires { length left.now ≡ arc_total m }
    ensures next { IfSome result (IsNext m left.now from) }
    ensures end { IfNone result (IsWalk m left.now from []) }
{
    for before in from..m {
        if flow_on(m, left, from, before + 1) > 0 {
            return Some(before + 1);
        }
    }
    None
}

/// Takes 1 from each arc of a path.
fn take_path(m: u8, left: &mut [u32], path: &[u8])
    requires each { length left.old ≡ arc_total m }
    requires path { IsPath m path.now }
    ensures { left.new ≡ flow_after m left.old 0 path.now }
{
    let mut from = 0;
    for to in path {
        let arc = arc_index(m, from, *to);
        left[arc] = left[arc].saturating_sub(1);
        from = *to;
    }
}
