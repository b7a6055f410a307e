//! What a placement costs.
ghost use Rattle.std.specs.Prelude.{◌≡◌, ◌<◌, ◌≤◌, ◌^◌, ◌*◌, ◌==◌, ℕ, Bool, All, Some, length, slice_get, slice_index, if◌then◌else◌};
ghost use Rattle.std.specs.List.Sorted.{IsStrictlyIncreasing};
ghost use Rattle.flow_graph.specs.Paths.{AreReached};
ghost use Rattle.profile.specs.Counts.{HasSlots, IsUnreachedZero, total};
ghost use Rattle.placement.specs.Costs.{weight_of, slot_count, edge_count, point_count, edges_cost, points_cost, cost_of};

use crate::placements::Placement;
use flow_graph::slots_len;
use ir_types::syntax::Function;
use point_graph::{Edge, EdgeKind, Point, Points};
use profile::{FnCounts, count_of_block};

/// The weight of a count of 1. It is more than a function within the limits has points and edges, so of two
/// placements with different sums of counts the one with the smaller sum costs less.
pub const BASE: u128 = 1 << 20;

/// The weight of a count: so many times `BASE`, and 1 for 0.
pub fn weight(count: u64) -> u128
    ensures weight { result ≡ weight_of count }
    ensures small { result ≤ 2 ^ 84 }
{
    if count == 0 {
        1
    } else {
        u128::from(count) * BASE
    }
}

/// The count at an index, or 0 behind the last.
fn count_at(counts: &[u64], index: u32) -> u64
    ensures { result ≡ slice_index counts.now index }
{
    counts.get(index as usize).copied().unwrap_or(0)
}

/// How often a slot of a block was taken.
fn count_of_slot(function: &Function<'_>, counts: &FnCounts, block: u32, slot: u32) -> u64
    requires { HasSlots function.now counts.now }
    ensures { result ≡ slot_count function.now counts.now block slot }
{
    let blocks = function.blocks.as_slice();
    let mut rest = counts.slots.as_slice();
    for (index, from) in blocks.iter().enumerate() {
        if index == block as usize {
            return count_at(rest, slot);
        }
        let (_own, later) = rest.split_at(slots_len(&from.term));
        rest = later;
    }
    0
}

fn count_of_edge(function: &Function<'_>, counts: &FnCounts, kind: EdgeKind) -> u64
    requires slots { HasSlots function.now counts.now }
    requires unreached { IsUnreachedZero function.now counts.now }
    requires total { total counts.now < 2 ^ 64 }
    ensures { (reached : ℕ → Bool) → AreReached function.now reached → result ≡ edge_count function.now counts.now reached kind }
{
    match kind {
        EdgeKind::Entry => counts.entry,
        EdgeKind::Inside(block) => count_of_block(function, counts, block),
        EdgeKind::Slot(block, slot) => count_of_slot(function, counts, block, slot),
    }
}

fn count_of_point(function: &Function<'_>, counts: &FnCounts, point: Point) -> u64
    requires slots { HasSlots function.now counts.now }
    requires unreached { IsUnreachedZero function.now counts.now }
    requires total { total counts.now < 2 ^ 64 }
    ensures { (reached : ℕ → Bool) → AreReached function.now reached → result ≡ point_count function.now counts.now reached point }
{
    match point {
        Point::Start => counts.entry,
        Point::Head(block) | Point::Instr(block, _) | Point::Term(block) => {
            count_of_block(function, counts, block)
        }
    }
}

/// The edge of this number.
fn edge_at(edges: &[Edge], number: u32) -> Edge
    requires { number < length edges.now }
    ensures { slice_get edges.now number ≡ Some result }
{
    edges[number as usize]
}

/// The point of this number.
fn point_at(points: &[Point], number: u32) -> Point
    requires { number < length points.now }
    ensures { slice_get points.now number ≡ Some result }
{
    points[number as usize]
}

/// The sum of the weights of edges.
fn cost_of_edges(
    function: &Function<'_>,
    edges: &[Edge],
    counts: &FnCounts,
    inserted: &[u32],
) -> u128
    requires slots { HasSlots function.now counts.now }
    requires unreached { IsUnreachedZero function.now counts.now }
    requires total { total counts.now < 2 ^ 64 }
    requires ascending { IsStrictlyIncreasing inserted.now }
    requires within { All (λ edge. edge < length edges.now) inserted.now }
    ensures sum { (reached : ℕ → Bool) → AreReached function.now reached → result ≡ edges_cost function.now counts.now reached edges.now inserted.now }
    ensures small { result < 2 ^ 117 }
{
    let mut cost = 0;
    for edge in inserted {
        let place = edge_at(edges, *edge);
        cost += weight(count_of_edge(function, counts, place.kind));
    }
    cost
}

/// The sum of the weights of points.
fn cost_of_points(
    function: &Function<'_>,
    points: &[Point],
    counts: &FnCounts,
    kept: &[u32],
) -> u128
    requires slots { HasSlots function.now counts.now }
    requires unreached { IsUnreachedZero function.now counts.now }
    requires total { total counts.now < 2 ^ 64 }
    requires ascending { IsStrictlyIncreasing kept.now }
    requires within { All (λ point. point < length points.now) kept.now }
    ensures sum { (reached : ℕ → Bool) → AreReached function.now reached → result ≡ points_cost function.now counts.now reached points.now kept.now }
    ensures small { result < 2 ^ 117 }
{
    let mut cost = 0;
    for point in kept {
        let place = point_at(points, *point);
        cost += weight(count_of_point(function, counts, place));
    }
    cost
}

/// What a placement costs by the counts of a function: the sum of the weights of the inserted edges and the kept
/// occurrences. The entry edge and slots have their own counts; inside edges and instructions have the block's. It goes
/// over the slots of the function once for each of these places, and takes no memory. The part that the profile saw is
/// `cost / BASE`.
pub fn cost(
    function: &Function<'_>,
    points: &Points,
    counts: &FnCounts,
    placement: &Placement,
) -> u128
    requires slots { HasSlots function.now counts.now }
    requires unreached { IsUnreachedZero function.now counts.now }
    requires total { total counts.now < 2 ^ 64 }
    requires inserted_ascending { IsStrictlyIncreasing placement.now.inserted }
    requires inserted { All (λ edge. edge < length points.now.edges) placement.now.inserted }
    requires kept_ascending { IsStrictlyIncreasing placement.now.kept }
    requires kept { All (λ point. point < length points.now.points) placement.now.kept }
    ensures { (reached : ℕ → Bool) → AreReached function.now reached → result ≡ cost_of function.now counts.now reached points.now placement.now }
{
    cost_of_edges(
        function,
        points.edges.as_slice(),
        counts,
        placement.inserted.as_slice(),
    ) + cost_of_points(
        function,
        points.points.as_slice(),
        counts,
        placement.kept.as_slice(),
    )
}
