//! The points from which an expression is sure to occur.
ghost use Rattle.std.specs.Prelude.{◌≡◌, ◌<◌, ◌↔◌, ℕ, IfOk, length, vec_len};
ghost use Rattle.point_graph.specs.Numbers.{ArePoints};
ghost use Rattle.expressions.specs.Tables.{IsEventOf, IsTable};
ghost use Rattle.flow_paths.specs.Spreads.{IsSet};
ghost use Rattle.placement.specs.Placements.{arcs_of, IsInevitable};

use crate::counting::inevitable_points;
use crate::telling::{arcs_from, events};
use expressions::Table;
use ir_types::syntax::Function;
use mc_num::NoMemory;
use point_graph::Points;
use std::alloc::Global;

/// For each point, whether the expression occurs on every way from it, with no kill and no bar before it.
///
/// Start is never inevitable; an occurrence is, and a point that neither kills nor bars is where it has a successor and
/// all of its successors are. A way that never ends has no occurrence. `e` is the number of the expression. It takes
/// linear time. `NoMemory` where an allocation was refused.
pub fn inevitable(
    alloc: Global,
    function: &Function<'_>,
    points: &Points,
    table: &Table<'_, '_>,
    e: u32,
) -> Result<Vec<bool>, NoMemory>
    requires points { ArePoints function.now points.now }
    requires table { IsTable function.now points.now table.now }
    requires expression { e < length table.now.exprs }
    ensures len { IfOk result (λ bits. vec_len bits ≡ length points.now.points) }
    ensures bits { IfOk result (λ bits. (v : ℕ) → v < length points.now.points
        → IsSet bits.items v ↔ IsInevitable (arcs_of points.now.edges) (IsEventOf function.now points.now table.now e) v) }
{
    let events = events(alloc, function, points, table, e)?;
    let arcs = arcs_from(alloc, points.edges.as_slice())?;
    inevitable_points(alloc, &arcs, &events)
}
