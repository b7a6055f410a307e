//! What placements cost, by the counts of a function's blocks: each place is looked at once.
#![tactic(auto)]

ghost use Rattle.std.specs.Prelude.{◌≡◌, ◌<◌, ◌≤◌, ◌+◌, ◌^◌, ℕ, Bool, All, length, slice_get, slice_index};
ghost use Rattle.std.specs.List.Sorted.{IsStrictlyIncreasing};
ghost use Rattle.flow_graph.specs.Paths.{AreReached};
ghost use Rattle.profile.specs.Counts.{HasSlots, IsUnreachedZero, entering, total};
ghost use Rattle.block_counts.specs.Counts.{AreBlockCounts};
ghost use Rattle.placement.specs.Costs.{cost_of, edge_count, edges_cost, point_count, points_cost, slot_count};

use block_counts::BlockCounts;
use ir_types::syntax::Function;
use placement::{Placement, weight};
use point_graph::{Edge, EdgeKind, Point, Points};
use profile::{FnCounts, count_of_block};

/// The count at an index, or 0 behind the last.
fn count_at(counts: &[u64], index: usize) -> u64
    ensures { result ≡ slice_index counts.now index }
{
    counts.get(index).copied().unwrap_or(0)
}

/// How often a block was entered.
fn entered(function: &Function<'_>, counts: &FnCounts, by_block: &BlockCounts, block: u32) -> u64
    requires slots { HasSlots function.now counts.now }
    requires unreached { IsUnreachedZero function.now counts.now }
    requires total { total counts.now < 2 ^ 64 }
    requires counts { AreBlockCounts function.now counts.now by_block.now }
    ensures { (reached : ℕ → Bool) → AreReached function.now reached → result ≡ entering reached function.now counts.now block }
{
    if (block as usize) < by_block.entered.len() {
        by_block.entered[block as usize]
    } else {
        count_of_block(function, counts, block)
    }
}

/// How often a slot of a block was taken.
fn taken(
    function: &Function<'_>,
    counts: &FnCounts,
    by_block: &BlockCounts,
    block: u32,
    slot: u32,
) -> u64
    requires slots { HasSlots function.now counts.now }
    requires counts { AreBlockCounts function.now counts.now by_block.now }
    ensures { result ≡ slot_count function.now counts.now block slot }
{
    if (block as usize) < by_block.begins.len() {
        let begin = by_block.begins[block as usize];
        let (_before, own) = counts.slots.as_slice().split_at(begin);
        count_at(own, slot as usize)
    } else {
        0
    }
}

fn count_of_edge(
    function: &Function<'_>,
    counts: &FnCounts,
    by_block: &BlockCounts,
    kind: EdgeKind,
) -> u64
    requires slots { HasSlots function.now counts.now }
    requires unreached { IsUnreachedZero function.now counts.now }
    requires total { total counts.now < 2 ^ 64 }
    requires counts { AreBlockCounts function.now counts.now by_block.now }
    ensures { (reached : ℕ → Bool) → AreReached function.now reached → result ≡ edge_count function.now counts.now reached kind }
{
    match kind {
        EdgeKind::Entry => counts.entry,
        EdgeKind::Inside(block) => entered(function, counts, by_block, block),
        EdgeKind::Slot(block, slot) => taken(function, counts, by_block, block, slot),
    }
}

fn count_of_point(
    function: &Function<'_>,
    counts: &FnCounts,
    by_block: &BlockCounts,
    point: Point,
) -> u64
    requires slots { HasSlots function.now counts.now }
    requires unreached { IsUnreachedZero function.now counts.now }
    requires total { total counts.now < 2 ^ 64 }
    requires counts { AreBlockCounts function.now counts.now by_block.now }
    ensures { (reached : ℕ → Bool) → AreReached function.now reached → result ≡ point_count function.now counts.now reached point }
{
    match point {
        Point::Start => counts.entry,
        Point::Head(block) | Point::Instr(block, _) | Point::Term(block) => {
            entered(function, counts, by_block, block)
        }
    }
}

/// The edge of this number.
fn edge_at(edges: &[Edge], number: u32) -> Edge
    requires { number < length edges.now }
    ensures { slice_get edges.now number ≡ Some result }
{
    edges[number as usize]
}

/// The point of this number.
fn point_at(points: &[Point], number: u32) -> Point
    requires { number < length points.now }
    ensures { slice_get points.now number ≡ Some result }
{
    points[number as usize]
}

/// The sum of the weights of edges.
fn cost_of_edges(
    function: &Function<'_>,
    edges: &[Edge],
    counts: &FnCounts,
    by_block: &BlockCounts,
    inserted: &[u32],
) -> u128
    requires slots { HasSlots function.now counts.now }
    requires unreached { IsUnreachedZero function.now counts.now }
    requires total { total counts.now < 2 ^ 64 }
    requires counts { AreBlockCounts function.now counts.now by_block.now }
    requires ascending { IsStrictlyIncreasing inserted.now }
    requires within { All (λ edge. edge < length edges.now) inserted.now }
    ensures sum { (reached : ℕ → Bool) → AreReached function.now reached → result ≡ edges_cost function.now counts.now reached edges.now inserted.now }
    ensures small { result < 2 ^ 117 }
{
    let mut cost = 0;
    for edge in inserted {
        let place = edge_at(edges, *edge);
        cost += weight(count_of_edge(function, counts, by_block, place.kind));
    }
    cost
}

/// The sum of the weights of points.
fn cost_of_points(
    function: &Function<'_>,
    points: &[Point],
    counts: &FnCounts,
    by_block: &BlockCounts,
    kept: &[u32],
) -> u128
    requires slots { HasSlots function.now counts.now }
    requires unreached { IsUnreachedZero function.now counts.now }
    requires total { total counts.now < 2 ^ 64 }
    requires counts { AreBlockCounts function.now counts.now by_block.now }
    requires ascending { IsStrictlyIncreasing kept.now }
    requires within { All (λ point. point < length points.now) kept.now }
    ensures sum { (reached : ℕ → Bool) → AreReached function.now reached → result ≡ points_cost function.now counts.now reached points.now kept.now }
    ensures small { result < 2 ^ 117 }
{
    let mut cost = 0;
    for point in kept {
        let place = point_at(points, *point);
        cost += weight(count_of_point(function, counts, by_block, place));
    }
    cost
}

/// What a placement costs by the counts of a function, `by_block` being these counts by its blocks: what
/// `placement::cost` gives. It looks at each of its places once, and takes no memory.
pub fn cost_by_blocks(
    function: &Function<'_>,
    points: &Points,
    counts: &FnCounts,
    by_block: &BlockCounts,
    placement: &Placement,
) -> u128
    requires slots { HasSlots function.now counts.now }
    requires unreached { IsUnreachedZero function.now counts.now }
    requires total { total counts.now < 2 ^ 64 }
    requires counts { AreBlockCounts function.now counts.now by_block.now }
    requires inserted_ascending { IsStrictlyIncreasing placement.now.inserted }
    requires inserted { All (λ edge. edge < length points.now.edges) placement.now.inserted }
    requires kept_ascending { IsStrictlyIncreasing placement.now.kept }
    requires kept { All (λ point. point < length points.now.points) placement.now.kept }
    ensures cost { (reached : ℕ → Bool) → AreReached function.now reached → result ≡ cost_of function.now counts.now reached points.now placement.now }
    ensures small { result < 2 ^ 118 }
{
    cost_of_edges(
        function,
        points.edges.as_slice(),
        counts,
        by_block,
        placement.inserted.as_slice(),
    ) + cost_of_points(
        function,
        points.points.as_slice(),
        counts,
        by_block,
        placement.kept.as_slice(),
    )
}
