//! What is wrong with the entry of an expression that can trap.

ghost use Rattle.std.specs.Prelude.{◌≡◌, ◌<◌, ◌↔◌, ℕ, All, Contains, IfOk, IsTrue, MatchOption, length};
ghost use Rattle.std.specs.List.Sorted.{IsStrictlyIncreasing};
ghost use Rattle.point_graph.specs.Numbers.{ArePoints};
ghost use Rattle.expressions.specs.Tables.{IsEventOf, IsTable};
ghost use Rattle.flow_paths.specs.Paths.{target};
ghost use Rattle.flow_paths.specs.Spreads.{IsSet};
ghost use Rattle.placement.specs.Placements.{arcs_of, IsCorrect, IsSafe};
ghost use Rattle.best_choice.specs.Best.{IsPlacementOn};
ghost use Rattle.entry_check.specs.Parts.{IsTrappingFault, IsFirstUnset};

use crate::fault::Fault;
use expressions::Table;
use ir_types::syntax::Function;
use local_sets::inevitable;
use mc_num::NoMemory;
use placement::{Placement, first_invalid};
use point_graph::{Edge, Points};
use std::alloc::Global;

/// What is wrong with the placement of an expression that can trap: that it isn't correct, or else that it isn't safe.
/// It takes linear time. `NoMemory` where an allocation was refused.
pub fn trapping_fault(
    alloc: Global,
    function: &Function<'_>,
    points: &Points,
    table: &Table<'_, '_>,
    e: u32,
    placement: &Placement,
) -> Result<Option<Fault>, NoMemory>
    requires points { ArePoints function.now points.now }
    requires table { IsTable function.now points.now table.now }
    requires expression { e < length table.now.exprs }
    requires listed { IsPlacementOn (arcs_of points.now.edges) (length points.now.points) (IsEventOf function.now points.now table.now e) placement.now }
    ensures { IfOk result (λ fault. MatchOption fault
        (IsCorrect (arcs_of points.now.edges) (IsEventOf function.now points.now table.now e) placement.now × IsSafe (arcs_of points.now.edges) (IsEventOf function.now points.now table.now e) placement.now)
        (IsTrappingFault function.now points.now table.now e placement.now)) }
{
    if let Some(point) = first_invalid(alloc, function, points, table, e, placement)? {
        return Ok(Some(Fault::Incorrect(point)));
    }
    let bits = inevitable(alloc, function, points, table, e)?;
    match first_unset(
        points.edges.as_slice(),
        &bits,
        placement.inserted.as_slice(),
    ) {
        Some(edge) => Ok(Some(Fault::Unsafe(edge))),
        None => Ok(None),
    }
}

/// The first of these edges whose end isn't set.
fn first_unset(edges: &[Edge], bits: &[bool], numbers: &[u32]) -> Option<u32>
    requires ascending { IsStrictlyIncreasing numbers.now }
    requires within { All (λ e. e < length edges.now) numbers.now }
    ensures { MatchOption result ((e : ℕ) → Contains numbers.now e → IsSet bits.now (target (arcs_of edges.now) e)) (IsFirstUnset (arcs_of edges.now) bits.now numbers.now) }
{
    for number in numbers {
        if !is_end_set(edges, bits, *number) {
            return Some(*number);
        }
    }
    None
}

/// Whether the end of the edge of this number is set.
fn is_end_set(edges: &[Edge], bits: &[bool], number: u32) -> bool
    requires { number < length edges.now }
    ensures { IsTrue result ↔ IsSet bits.now (target (arcs_of edges.now) number) }
{
    bits.get(edges[number as usize].to as usize)
        .copied()
        .unwrap_or(false)
}
