//! The search from the goals against the arcs.
ghost use Rattle.std.specs.Prelude.{◌<◌, ◌↔◌, ◌≤◌, ℕ, All, Contains, IfOk, OnOk, length};
ghost use Rattle.live_search.specs.Leading.{LeadsTo};
ghost use Rattle.live_search.specs.Searching.{AddsOpen, IsSearch};

use crate::incoming::Incoming;
use crate::sets::{has, set_of};
use indexmap::IndexSet;
use mc_num::NoMemory;
use std::alloc::Global;

/// Adds the points that the arcs to a point leave, unless the point that is left or the arc is barred.
fn add_open(
    graph: &Incoming,
    point: usize,
    barred_points: &IndexSet<usize>,
    barred_arcs: &IndexSet<usize>,
    found: &mut IndexSet<usize>,
) -> Result<(), NoMemory>
    requires { point < graph.now.points }
    ensures { OnOk result (AddsOpen graph.now.arcs 0 point barred_points.now.keys barred_arcs.now.keys found.old.keys found.new.keys) }
{
    let mut next = graph.last_arc_to(point);
    while let Some(arc) = next {
        let from = graph.begin_of(arc) as usize;
        if !has(barred_arcs, arc as usize) && !has(barred_points, from) {
            found.insert(from)?;
        }
        next = graph.arc_before(arc);
    }
    Ok(())
}

/// Follows the found points, until each one is.
fn follow(
    graph: &Incoming,
    barred_points: &IndexSet<usize>,
    barred_arcs: &IndexSet<usize>,
    goals: &[u32],
    found: &mut IndexSet<usize>,
) -> Result<(), NoMemory>
    requires { IsSearch graph.now barred_points.now.keys barred_arcs.now.keys goals.now found.old.keys 0 }
    ensures { OnOk result (IsSearch graph.now barred_points.now.keys barred_arcs.now.keys goals.now found.new.keys (length found.new.keys)) }
{
    graph.arcs_join_points();
    let mut next = 0;
    while next < found.len() {
        let point = found[next];
        add_open(graph, point, barred_points, barred_arcs, found)?;
        next += 1;
    }
    Ok(())
}

/// The points from which some path leads to one of the goals and meets nothing barred before it.
pub fn found_from(
    alloc: Global,
    graph: &Incoming,
    goals: &[u32],
    barred_points: &IndexSet<usize>,
    barred_arcs: &IndexSet<usize>,
) -> Result<IndexSet<usize>, NoMemory>
    requires { All (λ v. v < graph.now.points) goals.now }
    ensures { IfOk result (λ found. (v : ℕ) → Contains found.keys v ↔ LeadsTo graph.now barred_points.now.keys barred_arcs.now.keys goals.now v) }
{
    let mut found = set_of(alloc, goals)?;
    follow(graph, barred_points, barred_arcs, goals, &mut found)?;
    Ok(found)
}
