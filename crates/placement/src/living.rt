//! Where the value that a placement keeps is live.
ghost use Rattle.std.specs.Prelude.{◌≡◌, ◌<◌, ◌^◌, ◌↔◌, ℕ, All, IfOk, length, vec_len};
ghost use Rattle.point_graph.specs.Numbers.{ArePoints};
ghost use Rattle.expressions.specs.Tables.{IsEventOf, IsTable};
ghost use Rattle.flow_paths.specs.Spreads.{IsSet};
ghost use Rattle.placement.specs.Placements.{arcs_of, IsLiveAt};
ghost use Rattle.placement.specs.Marking.{DeletedBits};
ghost use Rattle.placement.specs.Marked.{HasMarks, LiveBy};

use crate::marking::{Marked, is_deleted, mark_all};
use crate::placements::Placement;
use crate::telling::events;
use expressions::{Event, Table};
use flow_paths::{Mark, meets_unwritten};
use ir_types::syntax::Function;
use mc_num::NoMemory;
use point_graph::Points;
use std::alloc::Global;

/// For each point, whether some path from it meets a deleted occurrence with no write before it. A deleted occurrence
/// is itself live.
///
/// A write is an inserted edge or a kept occurrence. `e` is the number of the expression. It takes linear time.
/// `NoMemory` where an allocation was refused.
pub fn live_points(
    alloc: Global,
    function: &Function<'_>,
    points: &Points,
    table: &Table<'_, '_>,
    e: u32,
    placement: &Placement,
) -> Result<Vec<bool>, NoMemory>
    requires points { ArePoints function.now points.now }
    requires table { IsTable function.now points.now table.now }
    requires expression { e < length table.now.exprs }
    requires inserted { All (λ edge. edge < length points.now.edges) placement.now.inserted }
    requires kept { All (λ point. point < length points.now.points) placement.now.kept }
    ensures len { IfOk result (λ bits. vec_len bits ≡ length points.now.points) }
    ensures bits { IfOk result (λ bits. (v : ℕ) → v < length points.now.points
        → IsSet bits.items v ↔ IsLiveAt (arcs_of points.now.edges) (IsEventOf function.now points.now table.now e) placement.now v) }
{
    let events = events(alloc, function, points, table, e)?;
    let marked = mark_all(alloc, points.edges.as_slice(), events, placement)?;
    live_marked(alloc, &marked)
}

/// The points that meet a deleted occurrence with no write before it, by the marks.
fn live_marked(alloc: Global, marked: &Marked) -> Result<Vec<bool>, NoMemory>
    requires { HasMarks marked.now }
    ensures len { IfOk result (λ bits. vec_len bits ≡ length marked.now.events.items) }
    ensures bits { IfOk result (λ bits. (v : ℕ) → IsSet bits.items v ↔ LiveBy marked.now v) }
{
    let deleted = deleted_points(alloc, &marked.events, &marked.at_point)?;
    meets_unwritten(
        alloc,
        &marked.arcs,
        &marked.at_point,
        &marked.at_edge,
        deleted,
    )
}

/// For each point, whether it is a deleted occurrence.
fn deleted_points(alloc: Global, events: &[Event], at_point: &[Mark]) -> Result<Vec<bool>, NoMemory>
    requires { length at_point.now ≡ length events.now }
    ensures { IfOk result (λ bits. DeletedBits events.now at_point.now (length events.now) bits.items) }
{
    let mut bits = Vec::new(alloc);
    for (point, event) in events.iter().enumerate() {
        bits.push(is_deleted(*event, at_point[point]))?;
    }
    Ok(bits)
}
