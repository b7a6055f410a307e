//! The lazy placement of an expression.
ghost use Rattle.std.specs.Prelude.{◌≡◌, ℕ, ◌<◌, ◌^◌, ◌↔◌, false, length, Contains, IfOk, IsTrue, slice_index_or};
ghost use Rattle.std.specs.List.Sorted.{IsStrictlyIncreasing};
ghost use Rattle.point_graph.specs.Numbers.{ArePoints};
ghost use Rattle.expressions.specs.Tables.{IsEventOf, IsTable};
ghost use Rattle.flow_paths.specs.Paths.{target, ArcsWithin, Connects};
ghost use Rattle.flow_paths.specs.Spreads.{IsSet};
ghost use Rattle.placement.specs.Placements.{arcs_of, IsCorrect, IsInevitable, IsSafe};
ghost use Rattle.best_placement.specs.Blocks.{HasEvent};
ghost use Rattle.best_choice.specs.Best.{IsPlacementOn};
ghost use Rattle.lazy_motion.specs.Motion.{IsLazy};
ghost use Rattle.lazy_motion.specs.Optimality.{ComputesLeast, LivesLeast};
ghost use Rattle.lazy_motion.specs.Steps.{event_at};

use crate::delayed::{delayed_edges, undelayed_points};
use crate::early::early_edges;
use crate::telling::{arcs_from, events};
use expressions::{Event, Table};
use function_graphs::functions_have_graphs;
use ir_types::items::Items;
use ir_types::syntax::Function;
use local_sets::inevitable;
use mc_num::NoMemory;
use placement::Placement;
use point_graph::Points;
use std::alloc::Global;

/// The lazy placement of an expression: it is inserted as late as an occurrence that is sure to follow allows.
///
/// A path from Start is settled where it ends at an occurrence or where none is inevitable. The placement is correct and
/// safe; on each settled path no other safe correct placement computes the expression less often, and those that
/// compute as few are live wherever this one is. So it serves an expression that can trap, which may be computed only
/// where it is inevitable. `e` is the number of the expression. It takes linear time. `NoMemory` where an allocation was
/// refused.
///
/// Knoop, Rüthing and Steffen, "Lazy code motion", PLDI 1992.
pub fn lazy(
    alloc: Global,
    function: &Function<'_>,
    points: &Points,
    table: &Table<'_, '_>,
    e: u32,
) -> Result<Placement, NoMemory>
    requires defined { 0 < length function.now.blocks }
    requires points { ArePoints function.now points.now }
    requires table { IsTable function.now points.now table.now }
    requires expression { e < length table.now.exprs }
    ensures lazy { IfOk result (λ p. IsLazy (arcs_of points.now.edges) (IsEventOf function.now points.now table.now e) p) }
    ensures placement { IfOk result (λ p. IsPlacementOn (arcs_of points.now.edges) (length points.now.points) (IsEventOf function.now points.now table.now e) p) }
    ensures correct { IfOk result (λ p. IsCorrect (arcs_of points.now.edges) (IsEventOf function.now points.now table.now e) p) }
    ensures safe { IfOk result (λ p. IsSafe (arcs_of points.now.edges) (IsEventOf function.now points.now table.now e) p) }
    ensures best { IfOk result (λ p. ComputesLeast (arcs_of points.now.edges) (IsEventOf function.now points.now table.now e) p) }
    ensures lives { IfOk result (λ p. LivesLeast (arcs_of points.now.edges) (length points.now.points) (IsEventOf function.now points.now table.now e) p) }
{
    functions_have_graphs();
    let ahead = inevitable(alloc, function, points, table, e)?;
    let events = events(alloc, function, points, table, e)?;
    let arcs = arcs_from(alloc, points.edges.as_slice())?;
    lazy_with(alloc, &arcs, &events, &ahead)
}

/// The lazy placement, from what each point is and whether it is inevitable.
fn lazy_with(
    alloc: Global,
    arcs: &[(u32, u32)],
    events: &[Event],
    inevitable: &[bool],
) -> Result<Placement, NoMemory>
    requires start { 0 < length events.now }
    requires passes { event_at events.now 0 ≡ Event.Passes }
    requires points { length events.now < 2 ^ 32 }
    requires edges { length arcs.now < 2 ^ 32 }
    requires within { ArcsWithin arcs.now (length events.now) }
    requires reached { (v : ℕ) → v < length events.now → Connects arcs.now 0 v }
    requires len { length inevitable.now ≡ length events.now }
    requires inevitable { (v : ℕ) → v < length events.now → IsSet inevitable.now v ↔ IsInevitable arcs.now (HasEvent (event_at events.now)) v }
    ensures lazy { IfOk result (λ p. IsLazy arcs.now (HasEvent (event_at events.now)) p) }
    ensures placement { IfOk result (λ p. IsPlacementOn arcs.now (length events.now) (HasEvent (event_at events.now)) p) }
    ensures correct { IfOk result (λ p. IsCorrect arcs.now (HasEvent (event_at events.now)) p) }
    ensures safe { IfOk result (λ p. IsSafe arcs.now (HasEvent (event_at events.now)) p) }
    ensures best { IfOk result (λ p. ComputesLeast arcs.now (HasEvent (event_at events.now)) p) }
    ensures lives { IfOk result (λ p. LivesLeast arcs.now (length events.now) (HasEvent (event_at events.now)) p) }
{
    let early = early_edges(alloc, arcs, events, inevitable)?;
    let delayed = delayed_edges(alloc, arcs, events, &early)?;
    let undelayed = undelayed_points(alloc, arcs, events, &delayed)?;
    let inserted = last_delayed(alloc, arcs, &delayed, &undelayed)?;
    let kept = delayed_occurrences(alloc, events, &undelayed)?;
    Ok(Placement {
        inserted: Items::from(inserted),
        kept: Items::from(kept),
    })
}

/// The delayed arcs whose end isn't delayed.
fn last_delayed(
    alloc: Global,
    arcs: &[(u32, u32)],
    delayed: &[bool],
    undelayed: &[bool],
) -> Result<Vec<u32>, NoMemory>
    requires numbered { length arcs.now < 2 ^ 32 }
    requires within { ArcsWithin arcs.now (length undelayed.now) }
    requires len { length delayed.now ≡ length arcs.now }
    ensures ascending { IfOk result (λ edges. IsStrictlyIncreasing edges.items) }
    ensures items { IfOk result (λ edges. (e : ℕ) → Contains edges.items e
        ↔ ((e < length arcs.now) × IsSet delayed.now e × IsSet undelayed.now (target arcs.now e))) }
{
    let mut edges = Vec::new(alloc);
    for (arc, (_, to)) in arcs.iter().enumerate() {
        if delayed[arc] && undelayed[*to as usize] {
            edges.push(arc as u32)?;
        }
    }
    Ok(edges)
}

/// The delayed occurrences.
fn delayed_occurrences(
    alloc: Global,
    events: &[Event],
    undelayed: &[bool],
) -> Result<Vec<u32>, NoMemory>
    requires numbered { length events.now < 2 ^ 32 }
    requires len { length undelayed.now ≡ length events.now }
    ensures ascending { IfOk result (λ kept. IsStrictlyIncreasing kept.items) }
    ensures items { IfOk result (λ kept. (v : ℕ) → Contains kept.items v
        ↔ ((v < length events.now) × (slice_index_or events.now v Event.Occurs ≡ Event.Occurs) × (slice_index_or undelayed.now v false ≡ false))) }
{
    let mut kept = Vec::new(alloc);
    for (point, event) in events.iter().enumerate() {
        if is_kept(*event, undelayed[point]) {
            kept.push(point as u32)?;
        }
    }
    Ok(kept)
}

/// Whether a point with this event is an occurrence that is delayed.
fn is_kept(event: Event, undelayed: bool) -> bool
    ensures { IsTrue result ↔ ((event ≡ Event.Occurs) × (undelayed ≡ false)) }
{
    match event {
        Event::Occurs => !undelayed,
        Event::Kills | Event::Bars | Event::Passes => false,
    }
}
