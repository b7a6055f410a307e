//! Whether networks and flows are valid.

ghost use Rattle.std.specs.Prelude.{◌≡◌, ℕ, ◌+◌, ◌^◌, ◌<◌, ◌≤◌, ◌↔◌, IsTrue, All, length, sum_by};
ghost use Rattle.flow_net.specs.Network.{IsValid, IsWithin, IsArcOf, loads};

use crate::{Arc, Flow, Net};

/// What the sum of a network's capacities stays below.
const CAPACITY_BOUND: u128 = 1 << 120;

/// Whether a network is valid: at least two nodes, arcs in range and none into the source or out of the sink, and
/// capacities whose sum is below 2^120.
pub fn is_valid(net: &Net) -> bool
    ensures { IsTrue result ↔ IsValid net.now }
{
    if net.nodes < 2 {
        return false;
    }
    are_arcs_of(net.nodes, &net.arcs) && is_total_small(&net.arcs)
}

/// Whether a flow has one amount for each arc, none above the arc's capacity.
pub fn is_within(net: &Net, flow: &Flow) -> bool
    ensures { IsTrue result ↔ IsWithin net.now flow.now }
{
    flow.amounts.len() == net.arcs.len() && are_amounts_below(net, flow)
}

/// Whether all arcs can stand in a network of so many nodes.
fn are_arcs_of(nodes: u32, arcs: &[Arc]) -> bool
    ensures { IsTrue result ↔ All (IsArcOf nodes) arcs.now }
{
    for arc in arcs {
        if !is_arc_of(nodes, *arc) {
            return false;
        }
    }
    true
}

/// Whether an arc can stand in a network of so many nodes.
fn is_arc_of(nodes: u32, arc: Arc) -> bool
    ensures { IsTrue result ↔ IsArcOf nodes arc }
{
    arc.from < nodes && arc.to < nodes && 0 < arc.to && arc.from != 1
}

/// Whether the sum of the capacities is below the bound.
fn is_total_small(arcs: &[Arc]) -> bool
    ensures { IsTrue result ↔ (sum_by (λ arc. arc.cap) arcs.now < 2 ^ 120) }
{
    let mut left = CAPACITY_BOUND;
    for arc in arcs {
        if left <= arc.cap {
            return false;
        }
        left -= arc.cap;
    }
    true
}

/// Whether no amount is above its arc's capacity.
fn are_amounts_below(net: &Net, flow: &Flow) -> bool
    requires { length flow.now.amounts.items ≡ length net.now.arcs.items }
    ensures { IsTrue result ↔ All (λ load. load.1 ≤ load.0.cap) (loads net.now flow.now) }
{
    for index in 0..net.arcs.len() {
        if net.arcs[index].cap < flow.amounts[index] {
            return false;
        }
    }
    true
}
