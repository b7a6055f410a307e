//! What each point is to an expression.
ghost use Rattle.std.specs.Prelude.{◌<◌, ◌^◌, IfOk, length};
ghost use Rattle.expressions.specs.Tables.{IsEventOf, IsTable};
ghost use Rattle.placement.specs.Marking.{AreEvents};

use expressions::{Event, Table, event};
use ir_types::syntax::Function;
use mc_num::NoMemory;
use point_graph::Points;
use std::alloc::Global;

/// What each point is to an expression of the table.
pub fn events(
    alloc: Global,
    function: &Function<'_>,
    points: &Points,
    table: &Table<'_, '_>,
    e: u32,
) -> Result<Vec<Event>, NoMemory>
    requires table { IsTable function.now points.now table.now }
    requires expression { e < length table.now.exprs }
    requires few { length points.now.points < 2 ^ 32 }
    ensures { IfOk result (λ events. AreEvents (IsEventOf function.now points.now table.now e) (length points.now.points) events.items) }
{
    let mut events = Vec::new(alloc);
    for point in 0..points.points.len() {
        events.push(event(function, points, table, e, point as u32))?;
    }
    Ok(events)
}
