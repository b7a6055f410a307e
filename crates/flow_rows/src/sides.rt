//! All sides of a network of at most six nodes, by enumeration.

use flow_net::Net;

/// As many as there are sets of six nodes.
const SETS: u32 = 64;

/// Whether a node is in a set, which is given by the bits of a number.
pub fn is_in(set: u32, node: u32) -> bool {
    node < 32 && (set >> node) & 1 == 1
}

/// Whether a set of nodes has the sink and not the source.
fn is_side(set: u32) -> bool {
    is_in(set, 1) && !is_in(set, 0)
}

/// The sum of the capacities of the arcs into a set.
fn capacity_into(net: &Net, set: u32) -> u128 {
    let mut sum: u128 = 0;
    for arc in &net.arcs {
        if is_in(set, arc.to) && !is_in(set, arc.from) {
            sum = sum.wrapping_add(arc.cap);
        }
    }
    sum
}

/// The least capacity of a side.
pub fn least_capacity(net: &Net) -> u128 {
    let mut least = u128::MAX;
    for set in 0..SETS {
        if is_side(set) {
            least = least.min(capacity_into(net, set));
        }
    }
    least
}

/// Whether a node is in each side of the least capacity.
pub fn is_in_latest(net: &Net, least: u128, node: u32) -> bool {
    for set in 0..SETS {
        if is_side(set) && capacity_into(net, set) == least && !is_in(set, node) {
            return false;
        }
    }
    true
}
