//! Directed graphs.

ghost use Rattle.std.specs.Prelude.{◌≡◌, ℕ, ◌<◌, [], IfOk, length, map, replicate, slice_index_or, vec_len};
ghost use Rattle.dataflow.specs.FixedPoints.{source, ends_from};

use std::alloc::{AllocError, Global};

/// A directed graph over the nodes below `nodes`. An arc is the node where it begins and the node where it ends.
#[derive(Drop)]
pub struct Digraph {
    pub nodes: u32,
    pub arcs: Vec<(u32, u32)>,
}

/// A list without elements for each node.
fn empty_lists(alloc: Global, nodes: u32) -> Result<Vec<Vec<u32>>, AllocError>
    ensures { IfOk result (λ lists. map (λ list. list.items) lists.items ≡ replicate nodes []) }
{
    let mut lists = Vec::new(alloc);
    for _ in 0..nodes {
        lists.push(Vec::new(alloc))?;
    }
    Ok(lists)
}

/// For each node the ends of the arcs from it.
pub(crate) fn ends_by_node(
    alloc: Global,
    nodes: u32,
    arcs: &[(u32, u32)],
) -> Result<Vec<Vec<u32>>, AllocError>
    requires { (e : ℕ) → e < length arcs.now → source arcs.now e < nodes }
    ensures each { IfOk result (λ lists. vec_len lists ≡ nodes) }
    ensures ends { IfOk result (λ lists. (n : ℕ) → n < nodes → slice_index_or (map (λ list. list.items) lists.items) n [] ≡ ends_from arcs.now n) }
{
    let mut lists = empty_lists(alloc, nodes)?;
    for (from, to) in arcs {
        lists[*from as usize].push(*to)?;
    }
    Ok(lists)
}
