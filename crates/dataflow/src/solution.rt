//! The greatest fixed point of a transfer over a graph.

ghost use Rattle.std.specs.Prelude.{◌≡◌, ℕ, ◌<◌, IfOk, slice_index_or, vec_len};
ghost use Rattle.dataflow.specs.FixedPoints.{ArcsWithin, IsGreatestFixedPoint};

use crate::graph::Digraph;
use crate::lattice::{Meet, Transfer};
use crate::worklist::settle;
use mc_num::NoMemory;
use std::alloc::Global;

/// A value on entry to each node and one at its exit, by the node's number.
#[derive(Drop)]
pub struct Solution<V> {
    pub entry: Vec<V>,
    pub exit: Vec<V>,
}

/// The greatest fixed point of a transfer over a graph, by a worklist (Kildall, "A unified approach to global program
/// optimization", 1973). `entry` holds the start entry of each node and `exit` its start exit. An entry of the solution is the
/// node's start entry met with the exits of all nodes that have an arc to it, and an exit is what leaves the node for its entry.
/// `leave` is called once for each node and once more for each fall of an entry. Memory is linear in nodes and
/// arcs; `NoMemory` comes where it is refused, and entry and exit are then lost.
pub fn solve<V: Meet + Drop, T: Transfer<V>>(
    alloc: Global,
    graph: &Digraph,
    transfer: &T,
    mut entry: Vec<V>,
    mut exit: Vec<V>,
) -> Result<Solution<V>, NoMemory>
    requires nodes { vec_len entry ≡ graph.now.nodes }
    requires within { ArcsWithin graph.now.arcs.items graph.now.nodes }
    requires same { vec_len exit ≡ graph.now.nodes }
    requires entries_alike { (d : V) (n m : ℕ) → n < graph.now.nodes → m < graph.now.nodes
        → V.Alike (slice_index_or entry.items n d) (slice_index_or entry.items m d) }
    requires exits_alike { (d : V) (n : ℕ) → n < graph.now.nodes
        → V.Alike (slice_index_or exit.items n d) (slice_index_or entry.items n d) }
    requires knows { (d : V) (n : ℕ) (x : V) → n < graph.now.nodes → V.Alike x (slice_index_or entry.items n d)
        → T.Knows transfer.now n x }
    ensures entries { IfOk result (λ solution. vec_len solution.entry ≡ graph.now.nodes) }
    ensures exits { IfOk result (λ solution. vec_len solution.exit ≡ graph.now.nodes) }
    ensures greatest { IfOk result (λ solution. (d : V) → IsGreatestFixedPoint V.Alike V.met (T.leaving transfer.now) graph.now.arcs.items graph.now.nodes
        (λ n. slice_index_or entry.items n d) (λ n. slice_index_or solution.entry.items n d) (λ n. slice_index_or solution.exit.items n d)) }
{
    settle(alloc, graph, transfer, &mut entry, &mut exit)?;
    Ok(Solution { entry, exit })
}
