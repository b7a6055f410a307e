//! Whether a placement is correct.
ghost use Rattle.std.specs.Prelude.{◌≡◌, ◌<◌, ◌^◌, ℕ, All, IfOk, MatchOption, length};
ghost use Rattle.point_graph.specs.Numbers.{ArePoints};
ghost use Rattle.expressions.specs.Tables.{IsEventOf, IsTable};
ghost use Rattle.placement.specs.Placements.{arcs_of, IsCorrect, IsFirstInvalid};
ghost use Rattle.placement.specs.Marking.{DeletedAndSet};
ghost use Rattle.placement.specs.Marked.{HasMarks, ReachesDeleted};

use crate::marking::{Marked, is_deleted, mark_all};
use crate::placements::Placement;
use crate::telling::events;
use expressions::{Event, Table};
use flow_paths::{Mark, unwritten};
use ir_types::syntax::Function;
use mc_num::NoMemory;
use point_graph::Points;
use std::alloc::Global;

/// The smallest deleted occurrence that some path from Start reaches with no write after the last kill; `None` exactly
/// where the placement is correct.
///
/// A write is an inserted edge or a kept occurrence. `e` is the number of the expression. It takes linear time.
/// `NoMemory` where an allocation was refused.
pub fn first_invalid(
    alloc: Global,
    function: &Function<'_>,
    points: &Points,
    table: &Table<'_, '_>,
    e: u32,
    placement: &Placement,
) -> Result<Option<u32>, NoMemory>
    requires points { ArePoints function.now points.now }
    requires table { IsTable function.now points.now table.now }
    requires expression { e < length table.now.exprs }
    requires inserted { All (λ edge. edge < length points.now.edges) placement.now.inserted }
    requires kept { All (λ point. point < length points.now.points) placement.now.kept }
    ensures { IfOk result (λ first.
        let arcs = arcs_of points.now.edges in
        let events = IsEventOf function.now points.now table.now e in
        MatchOption first (IsCorrect arcs events placement.now) (IsFirstInvalid arcs events placement.now)) }
{
    let events = events(alloc, function, points, table, e)?;
    let marked = mark_all(alloc, points.edges.as_slice(), events, placement)?;
    first_marked(alloc, &marked)
}

/// The smallest deleted occurrence that some path from point 0 reaches with no write after the last kill, by the marks.
fn first_marked(alloc: Global, marked: &Marked) -> Result<Option<u32>, NoMemory>
    requires { HasMarks marked.now }
    ensures { IfOk result (λ first. MatchOption first
        ((w : ℕ) → w < length marked.now.events.items → ¬ (ReachesDeleted marked.now w))
        (λ v. (v < length marked.now.events.items) × ReachesDeleted marked.now v
        × ((w : ℕ) → w < v → ¬ (ReachesDeleted marked.now w)))) }
{
    let invalid = unwritten(alloc, &marked.arcs, &marked.at_point, &marked.at_edge)?;
    Ok(first_deleted(&marked.events, &marked.at_point, &invalid))
}

/// The smallest deleted occurrence whose bit is set.
fn first_deleted(events: &[Event], at_point: &[Mark], bits: &[bool]) -> Option<u32>
    requires numbered { length events.now < 2 ^ 32 }
    requires marks { length at_point.now ≡ length events.now }
    requires bits { length bits.now ≡ length events.now }
    ensures { MatchOption result
        ((w : ℕ) → w < length events.now → ¬ DeletedAndSet events.now at_point.now bits.now w)
        (λ v. (v < length events.now) × DeletedAndSet events.now at_point.now bits.now v
        × ((w : ℕ) → w < v → ¬ DeletedAndSet events.now at_point.now bits.now w)) }
{
    for (point, event) in events.iter().enumerate() {
        if is_deleted(*event, at_point[point]) && bits[point] {
            return Some(point as u32);
        }
    }
    None
}
