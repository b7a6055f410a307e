//! What each point is to an expression, and where each edge leads.
ghost use Rattle.std.specs.Prelude.{◌≡◌, ◌<◌, ◌^◌, IfOk, length};
ghost use Rattle.expressions.specs.Tables.{IsEventOf, IsTable};
ghost use Rattle.placement.specs.Marking.{AreEvents};
ghost use Rattle.placement.specs.Placements.{arcs_of};

use expressions::{Event, Table, event};
use ir_types::syntax::Function;
use mc_num::NoMemory;
use point_graph::{Edge, Points};
use std::alloc::Global;

/// What each point is to an expression of the table.
pub fn events(
    alloc: Global,
    function: &Function<'_>,
    points: &Points,
    table: &Table<'_, '_>,
    e: u32,
) -> Result<Vec<Event>, NoMemory>
    requires table { IsTable function.now points.now table.now }
    requires expression { e < length table.now.exprs }
    requires few { length points.now.points < 2 ^ 32 }
    ensures { IfOk result (λ events. AreEvents (IsEventOf function.now points.now table.now e) (length points.now.points) events.items) }
{
    let mut events = Vec::new(alloc);
    for point in 0..points.points.len() {
        events.push(event(function, points, table, e, point as u32))?;
    }
    Ok(events)
}

/// The ends of each edge.
pub fn arcs_from(alloc: Global, edges: &[Edge]) -> Result<Vec<(u32, u32)>, NoMemory>
    ensures { IfOk result (λ arcs. arcs.items ≡ arcs_of edges.now) }
{
    Ok(
        edges
            .iter()
            .map(|edge| (edge.from, edge.to))
            .collect(alloc)?,
    )
}
