//! Whether ranks fall to the sink.

ghost use Rattle.std.specs.Prelude.{◌≡◌, ◌<◌, ◌↔◌, ◌⊎◌, ℕ, IsTrue, MatchOption, length, slice_index_or};
ghost use Rattle.flow_net.specs.Network.{IsValid, IsWithin};
ghost use Rattle.flow_check.specs.Faults.{FallsFrom, IsFirstStuck, RanksFall};
ghost use Rattle.flow_check.specs.Marks.{IsMarked, IsLower, IsFirstUnmarked, rank_at};

use flow_net::{Flow, Net};

/// The first node of a rank above 0 that has no residual arc to the sink or to a node of a lower rank above 0, if there
/// is one. `ranks` has a rank for each node, 0 for the source and the sink; `marks` has a place for each node, and what
/// stands there before and after says nothing. It takes linear time and no memory.
pub fn check_ranks(net: &Net, flow: &Flow, ranks: &[u32], marks: &mut [bool]) -> Option<u32>
    requires valid { IsValid net.now }
    requires within { IsWithin net.now flow.now }
    requires ranks { length ranks.now ≡ net.now.nodes }
    requires source { slice_index_or ranks.now 0 0 ≡ 0 }
    requires sink { slice_index_or ranks.now 1 0 ≡ 0 }
    requires marks { length marks.old ≡ net.now.nodes }
    ensures exact { MatchOption result (RanksFall net.now flow.now (λ v. slice_index_or ranks.now v 0)) (IsFirstStuck net.now flow.now (λ v. slice_index_or ranks.now v 0)) }
    ensures places { length marks.new ≡ length marks.old }
{
    clear(marks);
    mark_falling(net, flow, ranks, marks);
    first_unmarked(net.nodes, ranks, marks)
}

/// Marks no node.
fn clear(marks: &mut [bool])
    ensures { (v : ℕ) → ¬ (IsMarked marks.new v) }
{
    for mark in marks.iter_mut() {
        *mark = false;
    }
}

/// Marks the nodes with a residual arc to the sink or to a node of a lower rank above 0.
fn mark_falling(net: &Net, flow: &Flow, ranks: &[u32], marks: &mut [bool])
    requires valid { IsValid net.now }
    requires within { IsWithin net.now flow.now }
    requires ranks { length ranks.now ≡ net.now.nodes }
    requires marks { length marks.old ≡ net.now.nodes }
    requires clear { (v : ℕ) → ¬ (IsMarked marks.old v) }
    ensures { (v : ℕ) → IsMarked marks.new v ↔ FallsFrom net.now flow.now (rank_at ranks.now) v }
{
    for (index, arc) in net.arcs.iter().enumerate() {
        let amount = flow.amounts[index];
        mark_if(
            falls_by(amount < arc.cap, ranks, arc.from, arc.to),
            arc.from,
            marks,
        );
        mark_if(falls_by(0 < amount, ranks, arc.to, arc.from), arc.to, marks);
    }
}

/// Whether more can go from a node to another that is the sink, or has a lower rank above 0.
fn falls_by(lets_more: bool, ranks: &[u32], from: u32, to: u32) -> bool
    requires from { from < length ranks.now }
    requires to { to < length ranks.now }
    ensures { IsTrue result ↔ (IsTrue lets_more × IsLower ranks.now to from) }
{
    lets_more && (to == 1 || (0 < ranks[to as usize] && ranks[to as usize] < ranks[from as usize]))
}

/// Marks a node, if it falls.
fn mark_if(falls: bool, node: u32, marks: &mut [bool])
    requires { node < length marks.old }
    ensures { (v : ℕ) → IsMarked marks.new v ↔ (IsMarked marks.old v ⊎ (IsTrue falls × (v ≡ node))) }
{
    if falls {
        marks[node as usize] = true;
    }
}

/// The first of so many nodes of a rank above 0 that isn't marked.
fn first_unmarked(nodes: u32, ranks: &[u32], marks: &[bool]) -> Option<u32>
    requires ranks { length ranks.now ≡ nodes }
    requires marks { length marks.now ≡ nodes }
    ensures { MatchOption result ((v : ℕ) → 0 < rank_at ranks.now v → IsMarked marks.now v) (IsFirstUnmarked ranks.now marks.now) }
{
    for node in 0..nodes {
        if is_unmarked(ranks[node as usize], marks[node as usize]) {
            return Some(node);
        }
    }
    None
}

/// Whether a rank is above 0 and the mark is missing.
fn is_unmarked(rank: u32, mark: bool) -> bool
    ensures { IsTrue result ↔ ((0 < rank) × ¬ (IsTrue mark)) }
{
    0 < rank && !mark
}
