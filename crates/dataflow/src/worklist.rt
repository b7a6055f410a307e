//! Lets entries and exits fall to a fixed point, by a stack of the nodes that are pending (Kildall's method). It begins in
//! reverse postorder.

ghost use Rattle.std.specs.Prelude.{◌≡◌, ℕ, ◌<◌, ◌≤◌, ◌+◌, ◌*◌, ◌++◌, [], ◌∷◌, ◌⊎◌, All, OnOk, length, slice_index_or, slice_set, sum_by, vec_len};
ghost use Rattle.dataflow.specs.FixedPoints.{ArcsWithin, IsGreatestFixedPoint};
ghost use Rattle.dataflow.specs.Meeting.{MetEnds};

use crate::graph::{Digraph, ends_by_node};
use crate::lattice::{Meet, Transfer};
use crate::order::postorder;
use std::alloc::{AllocError, Global};

/// Meets the entry of a node with an exit, and notes the node where this changed the entry.
fn meet_end<V: Meet>(
    entry: &mut [V],
    node: u32,
    exit: &V,
    pending: &mut Vec<u32>,
) -> Result<(), AllocError>
    requires within { node < length entry.old }
    requires alike { (d : V) → V.Alike (slice_index_or entry.old node d) exit.now }
    ensures met { OnOk result ((d : V) → entry.new ≡ slice_set entry.old node (V.met (slice_index_or entry.old node d) exit.now)) }
    ensures noted { OnOk result (
        ((entry.new ≡ entry.old) × (pending.new.items ≡ pending.old.items))
        ⊎ ((sum_by V.height_of entry.new < sum_by V.height_of entry.old) × (pending.new.items ≡ pending.old.items ++ node ∷ []))) }
{
    if entry[node as usize].meet(exit) {
        pending.push(node)?;
    }
    Ok(())
}

/// Meets the entries of the ends of a node's arcs with its exit, and notes those that changed.
fn meet_ends<V: Meet>(
    ends: &[u32],
    entry: &mut [V],
    exit: &V,
    pending: &mut Vec<u32>,
) -> Result<(), AllocError>
    requires within { All (λ n. n < length entry.old) ends.now }
    requires alike { (d : V) (n : ℕ) → n < length entry.old → V.Alike (slice_index_or entry.old n d) exit.now }
    requires pending { All (λ n. n < length entry.old) pending.old.items }
    ensures met { OnOk result ((d : V) → MetEnds V.Alike V.met d ends.now entry.old entry.new exit.now pending.old.items pending.new.items (length ends.now)) }
    ensures pending { OnOk result (All (λ n. n < length entry.old) pending.new.items) }
    ensures falls { OnOk result (2 * sum_by V.height_of entry.new + vec_len pending.new ≤ 2 * sum_by V.height_of entry.old + vec_len pending.old) }
{
    for end in ends {
        meet_end(entry, *end, exit, pending)?;
    }
    Ok(())
}

/// Lets values leave the pending nodes until none is pending.
pub(crate) fn settle<V: Meet, T: Transfer<V>>(
    alloc: Global,
    graph: &Digraph,
    transfer: &T,
    entry: &mut [V],
    exit: &mut [V],
) -> Result<(), AllocError>
    requires nodes { length entry.old ≡ graph.now.nodes }
    requires within { ArcsWithin graph.now.arcs.items (length entry.old) }
    requires same { length exit.old ≡ length entry.old }
    requires entries_alike { (d : V) (n m : ℕ) → n < length entry.old → m < length entry.old
        → V.Alike (slice_index_or entry.old n d) (slice_index_or entry.old m d) }
    requires exits_alike { (d : V) (n : ℕ) → n < length entry.old
        → V.Alike (slice_index_or exit.old n d) (slice_index_or entry.old n d) }
    requires knows { (d : V) (n : ℕ) (x : V) → n < length entry.old → V.Alike x (slice_index_or entry.old n d)
        → T.Knows transfer.now n x }
    ensures { OnOk result ((d : V) → IsGreatestFixedPoint V.Alike V.met (T.leaving transfer.now) graph.now.arcs.items (length entry.old)
        (λ n. slice_index_or entry.old n d) (λ n. slice_index_or entry.new n d) (λ n. slice_index_or exit.new n d)) }
{
    let ends = ends_by_node(alloc, graph.nodes, &graph.arcs)?;
    let mut pending = postorder(alloc, graph)?;
    while let Some(node) = pending.pop() {
        let left = &mut exit[node as usize];
        transfer.leave(node, &entry[node as usize], left);
        meet_ends(&ends[node as usize], entry, left, &mut pending)?;
    }
    Ok(())
}
