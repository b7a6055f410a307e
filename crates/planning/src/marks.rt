//! What the placement of an expression says of points and edges.
ghost use Rattle.std.specs.Prelude.{◌≡◌, ◌<◌, ◌^◌, ◌==◌, ◌||◌, not, All, IfOk, filter, length, replicate, false, slice_index_or};
ghost use Rattle.std.specs.List.{list_any};
ghost use Rattle.flow_paths.specs.Paths.{ArcsWithin};
ghost use Rattle.placement.specs.Placements.{arcs_of};
ghost use Rattle.planning.specs.Marking.{has, is_missing, AreBits, AreMarks, IsGraphOf, IsSetOf};

use indexmap::IndexSet;
use live_search::Incoming;
use mc_num::NoMemory;
use placement::Placement;
use point_graph::{Edge, Points};
use std::alloc::Global;

/// What the placement of an expression says of points and edges.
#[derive(Drop)]
pub struct Marks {
    /// The points whose occurrences are kept.
    pub kept: IndexSet<usize>,
    /// The edges at which it is inserted.
    pub inserted: IndexSet<usize>,
    /// The points where its temporary is live.
    pub live: IndexSet<usize>,
}

/// `count` bits that aren't set.
fn clear_bits(alloc: Global, count: usize) -> Result<Vec<bool>, NoMemory>
    ensures { IfOk result (λ bits. bits.items ≡ replicate count false) }
{
    Ok(vec![in alloc; false; count]?)
}

/// For each number below `count`, whether it is listed.
pub fn bits_of(alloc: Global, count: usize, numbers: &[u32]) -> Result<Vec<bool>, NoMemory>
    requires { All (λ n. n < count) numbers.now }
    ensures { IfOk result (λ bits. AreBits count numbers.now bits.items) }
{
    let mut bits = clear_bits(alloc, count)?;
    for number in numbers {
        bits[*number as usize] = true;
    }
    Ok(bits)
}

/// The bit at an index; `false` behind the last.
pub fn bit_at(bits: &[bool], index: usize) -> bool
    ensures { result ≡ slice_index_or bits.now index false }
{
    bits.get(index).copied().unwrap_or(false)
}

/// The set of the listed numbers.
pub fn set_of(alloc: Global, numbers: &[u32]) -> Result<IndexSet<usize>, NoMemory>
    ensures { IfOk result (λ set. IsSetOf numbers.now set.keys) }
{
    let mut set = IndexSet::new(alloc);
    for number in numbers {
        set.insert(*number as usize)?;
    }
    Ok(set)
}

/// Whether a number is in the set.
pub fn has(set: &IndexSet<usize>, number: usize) -> bool
    ensures { result ≡ has set.now.keys number }
{
    set.contains(&number)
}

fn is_missing(set: &IndexSet<usize>, number: usize) -> bool
    ensures { result ≡ is_missing set.now.keys number }
{
    !has(set, number)
}

/// Whether something is inserted, or one of the occurrences deleted since it isn't kept. It takes linear time in the
/// occurrences.
pub fn is_needed(placement: &Placement, occurrences: &[u32], kept: &IndexSet<usize>) -> bool
    ensures { result ≡ (not (length placement.now.inserted == 0) || list_any (is_missing kept.now.keys) occurrences.now) }
{
    placement.inserted.len() != 0 || has_deleted(occurrences, kept)
}

/// Whether an occurrence is deleted.
fn has_deleted(occurrences: &[u32], kept: &IndexSet<usize>) -> bool
    ensures { result ≡ list_any (is_missing kept.now.keys) occurrences.now }
{
    occurrences
        .iter()
        .any(|point| is_missing(kept, *point as usize))
}

/// The occurrences that are kept.
fn kept_ones(
    alloc: Global,
    occurrences: &[u32],
    kept: &IndexSet<usize>,
) -> Result<Vec<u32>, NoMemory>
    ensures { IfOk result (λ list. list.items ≡ filter (has kept.now.keys) occurrences.now) }
{
    Ok(
        occurrences
            .iter()
            .copied()
            .filter(|point| has(kept, *point as usize))
            .collect(alloc)?,
    )
}

/// The occurrences that are deleted.
fn deleted_ones(
    alloc: Global,
    occurrences: &[u32],
    kept: &IndexSet<usize>,
) -> Result<Vec<u32>, NoMemory>
    ensures { IfOk result (λ list. list.items ≡ filter (is_missing kept.now.keys) occurrences.now) }
{
    Ok(
        occurrences
            .iter()
            .copied()
            .filter(|point| is_missing(kept, *point as usize))
            .collect(alloc)?,
    )
}

/// The ends of each edge.
fn arcs_from(alloc: Global, edges: &[Edge]) -> Result<Vec<(u32, u32)>, NoMemory>
    ensures { IfOk result (λ arcs. arcs.items ≡ arcs_of edges.now) }
{
    Ok(
        edges
            .iter()
            .map(|edge| (edge.from, edge.to))
            .collect(alloc)?,
    )
}

/// The points of a function with the edges that lead to each.
pub fn graph_of(alloc: Global, points: &Points) -> Result<Incoming, NoMemory>
    requires within { ArcsWithin (arcs_of points.now.edges) (length points.now.points) }
    requires few { length points.now.edges < 2 ^ 32 }
    ensures { IfOk result (IsGraphOf points.now) }
{
    let arcs = arcs_from(alloc, points.edges.as_slice())?;
    let graph = Incoming::new(alloc, points.points.len(), arcs)?;
    Ok(graph)
}

/// What the placement of an expression says of points and edges, with its occurrences and the set of its kept points. It
/// looks at these, at the points where the temporary is live, and at the edges that lead there.
pub fn marks_of(
    alloc: Global,
    graph: &Incoming,
    placement: &Placement,
    occurrences: &[u32],
    kept: IndexSet<usize>,
) -> Result<Marks, NoMemory>
    requires occurrences { All (λ point. point < graph.now.points) occurrences.now }
    requires kept { IsSetOf placement.now.kept kept.keys }
    ensures { IfOk result (AreMarks graph.now placement.now occurrences.now) }
{
    let inserted = set_of(alloc, placement.inserted.as_slice())?;
    let written = set_of(alloc, &kept_ones(alloc, occurrences, &kept)?)?;
    let deleted = deleted_ones(alloc, occurrences, &kept)?;
    let live = graph.leading_to(alloc, &deleted, &written, &inserted)?;
    Ok(Marks {
        kept,
        inserted,
        live,
    })
}
