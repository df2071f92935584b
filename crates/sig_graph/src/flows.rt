// The test of a flow.
ghost use Rattle.std.specs.Prelude.{◌≡◌, ◌↔◌, ◌<◌, ◌≤◌, IsTrue, length};
ghost use Rattle.sig_graph.specs.Flows.{IsFlow, flow_at, flow_in, flow_out};
ghost use Rattle.sig_graph.specs.Paths.{arc_total};

use crate::arc_index;

/// Whether these numbers, one for each arc, are a flow with this total: at most the total leaves the start, and at most
/// what comes to it leaves each place.
pub fn is_flow(m: u8, flow: &[u32], total: u32) -> bool
    requires { length flow.now ≡ arc_total m }
    ensures { IsTrue result ↔ IsFlow m flow.now total }
{
    if sum_out(m, flow, 0) > u64::from(total) {
        return false;
    }
    for before in 0..m {
        if sum_out(m, flow, before + 1) > sum_in(m, flow, before + 1) {
            return false;
        }
    }
    true
}

/// What leaves the start or a place.
fn sum_out(m: u8, flow: &[u32], from: u8) -> u64
    requires each { length flow.now ≡ arc_total m }
    requires within { from ≤ m }
    ensures { result ≡ flow_out m flow.now from }
{
    let mut sum = 0;
    for before in from..m {
        sum += u64::from(flow_on(m, flow, from, before + 1));
    }
    sum
}

/// What comes to a place.
fn sum_in(m: u8, flow: &[u32], to: u8) -> u64
    requires each { length flow.now ≡ arc_total m }
    requires within { to ≤ m }
    ensures { result ≡ flow_in m flow.now to }
{
    let mut sum = 0;
    for from in 0..to {
        sum += u64::from(flow_on(m, flow, from, to));
    }
    sum
}

/// The flow on an arc.
pub(crate) fn flow_on(m: u8, flow: &[u32], from: u8, to: u8) -> u32
    requires each { length flow.now ≡ arc_total m }
    requires begins { from < to }
    requires ends { to ≤ m }
    ensures { result ≡ flow_at m flow.now from to }
{
    flow[arc_index(m, from, to)]
}
