//! What the calls tell of functions, beside the plain bodies.
ghost use Rattle.std.specs.Prelude.{◌<◌, ◌^◌, All, IsTrue, length};
ghost use Rattle.ir_types.specs.Limits.{IsWithinLimits};
ghost use Rattle.ir_types.specs.WellFormed.{IsFunctionIn};
ghost use Rattle.point_graph.specs.Numbers.{ArePoints};
ghost use Rattle.expressions.specs.Tables.{IsTable};

use crate::blocks::{all_sets, at_ends};
use crate::graphs::{Graph, Places, unset};
use crate::inevitability::inevitable as plain_inevitable;
use crate::meeting::all_that_meet;
use crate::placing::{outcome_of, placements};
use crate::reaching::reached_states;
use expressions::{Event, Table, event, table};
use ir_types::module::Module;
use ir_types::syntax::Function;
use local_sets::{inevitable, local_sets, reach};
use mc_num::NoMemory;
use placement::{Placement, first_invalid, live_points};
use point_graph::{Points, points};
use std::alloc::Global;

/// Where a call and a plain body differ.
#[derive(Clone, Copy, Debug, PartialEq, Eq)]
pub enum Difference {
    Sets,
    Available,
    Wanted,
    Inevitable,
    /// A placement that names no point or edge.
    Place,
    Invalid,
    Live,
}

/// The graph of an expression of the table.
fn graph_of<'p>(
    alloc: Global,
    function: &Function<'_>,
    points: &'p Points,
    table: &Table<'_, '_>,
    e: u32,
) -> Result<Graph<'p>, NoMemory>
    requires table { IsTable function.now points.now table.now }
    requires expression { e < length table.now.exprs }
    requires few { length points.now.points < 2 ^ 32 }
{
    let mut events = Vec::new(alloc);
    for point in 0..points.points.len() {
        events.push(event(function, points, table, e, point as u32))?;
    }
    Ok(Graph {
        points: points.points.as_slice(),
        edges: points.edges.as_slice(),
        events,
    })
}

/// For the ends of the blocks whether no path from Start reaches them without an occurrence after the last kill.
fn available(alloc: Global, graph: &Graph<'_>) -> Result<Vec<bool>, NoMemory> {
    let writes = Places {
        points: graph.all(alloc, Event::Occurs)?,
        edges: unset(alloc, graph.edges.len())?,
    };
    let reached = reached_states(alloc, graph, &writes)?;
    let mut bits = Vec::new(alloc);
    for invalid in &reached.invalid {
        bits.push(!*invalid)?;
    }
    at_ends(alloc, graph, &bits)
}

/// For the ends of the blocks whether some path from there meets an occurrence with no kill before it.
fn wanted(alloc: Global, graph: &Graph<'_>) -> Result<Vec<bool>, NoMemory> {
    let stops = Places {
        points: graph.all(alloc, Event::Kills)?,
        edges: unset(alloc, graph.edges.len())?,
    };
    let goals = graph.all(alloc, Event::Occurs)?;
    let bits = all_that_meet(alloc, graph, &stops, &goals)?;
    at_ends(alloc, graph, &bits)
}

/// Compares what is told of blocks and of points.
fn compare_sets(
    alloc: Global,
    function: &Function<'_>,
    points: &Points,
    table: &Table<'_, '_>,
    e: u32,
    graph: &Graph<'_>,
) -> Result<Option<Difference>, NoMemory>
    requires points { ArePoints function.now points.now }
    requires table { IsTable function.now points.now table.now }
    requires expression { e < length table.now.exprs }
{
    let sets = local_sets(alloc, function, points, table, e)?;
    if sets.as_slice() != all_sets(alloc, graph, points.blocks.as_slice())?.as_slice() {
        return Ok(Some(Difference::Sets));
    }
    let reached = reach(alloc, function, points, &sets)?;
    if reached.available.as_slice() != available(alloc, graph)?.as_slice() {
        return Ok(Some(Difference::Available));
    }
    if reached.wanted.as_slice() != wanted(alloc, graph)?.as_slice() {
        return Ok(Some(Difference::Wanted));
    }
    let told = inevitable(alloc, function, points, table, e)?;
    if told.as_slice() != plain_inevitable(alloc, graph)?.as_slice() {
        return Ok(Some(Difference::Inevitable));
    }
    Ok(None)
}

/// Whether each number is below the bound.
fn are_below(numbers: &[u32], bound: usize) -> bool
    ensures { IsTrue result → All (λ n. n < bound) numbers.now }
{
    numbers.iter().all(|n| (*n as usize) < bound)
}

/// Compares what is told of a placement.
fn compare_placement(
    alloc: Global,
    function: &Function<'_>,
    points: &Points,
    table: &Table<'_, '_>,
    e: u32,
    graph: &Graph<'_>,
    placement: &Placement,
) -> Result<Option<Difference>, NoMemory>
    requires points { ArePoints function.now points.now }
    requires table { IsTable function.now points.now table.now }
    requires expression { e < length table.now.exprs }
{
    if !are_below(placement.inserted.as_slice(), points.edges.len())
        || !are_below(placement.kept.as_slice(), points.points.len())
    {
        return Ok(Some(Difference::Place));
    }
    let plain = outcome_of(alloc, graph, placement)?;
    if first_invalid(alloc, function, points, table, e, placement)? != plain.invalid {
        return Ok(Some(Difference::Invalid));
    }
    let live = live_points(alloc, function, points, table, e, placement)?;
    if live.as_slice() != plain.live.as_slice() {
        return Ok(Some(Difference::Live));
    }
    Ok(None)
}

/// Compares what is told of the placements of an expression.
fn compare_placements(
    alloc: Global,
    function: &Function<'_>,
    points: &Points,
    table: &Table<'_, '_>,
    e: u32,
    graph: &Graph<'_>,
) -> Result<Option<Difference>, NoMemory>
    requires points { ArePoints function.now points.now }
    requires table { IsTable function.now points.now table.now }
    requires expression { e < length table.now.exprs }
{
    for placement in &placements(alloc, graph)? {
        let found = compare_placement(alloc, function, points, table, e, graph, placement)?;
        if found.is_some() {
            return Ok(found);
        }
    }
    Ok(None)
}

fn compare_expression(
    alloc: Global,
    function: &Function<'_>,
    points: &Points,
    table: &Table<'_, '_>,
    e: u32,
) -> Result<Option<Difference>, NoMemory>
    requires points { ArePoints function.now points.now }
    requires table { IsTable function.now points.now table.now }
    requires expression { e < length table.now.exprs }
{
    let graph = graph_of(alloc, function, points, table, e)?;
    match compare_sets(alloc, function, points, table, e, &graph)? {
        Some(difference) => Ok(Some(difference)),
        None => compare_placements(alloc, function, points, table, e, &graph),
    }
}

/// How many expressions a function has, where the calls tell of each what the plain bodies do; else where they first
/// differ.
pub fn compare_function<'a>(
    alloc: Global,
    module: &Module<'a>,
    function: &Function<'a>,
) -> Result<Result<u32, Difference>, NoMemory>
    requires defined { 0 < length function.now.blocks }
    requires rules { IsFunctionIn «module».now function.now }
    requires limits { IsWithinLimits function.now }
{
    let points = points(alloc, function)?;
    let table = table(alloc, module, function, &points)?;
    for e in 0..table.len() {
        if let Some(difference) = compare_expression(alloc, function, &points, &table, e)? {
            return Ok(Err(difference));
        }
    }
    Ok(Ok(table.len()))
}
