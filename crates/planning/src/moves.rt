//! What the placements of several expressions make of each edge and each point.
ghost use Rattle.std.specs.Prelude.{◌≡◌, ◌≢◌, ◌<◌, ◌^◌, ◌+◌, [], All, AllPairs, IfOk, OnOk, length, replicate};
ghost use Rattle.point_graph.specs.Numbers.{ArePoints};
ghost use Rattle.expressions.specs.Tables.{IsTable};
ghost use Rattle.occurrences.specs.Listed.{ArePlacesOf};
ghost use Rattle.planning.specs.Marking.{IsGraphOf};
ghost use Rattle.planning.specs.PlanOf.{ArePlacementsOf};
ghost use Rattle.planning.specs.Moving.{acting, edge_behind, stored_at, ActsOn, AddsMove, AddsTemp, IsMoved};

use crate::marks::{Marks, graph_of, has, is_needed, marks_of, set_of};
use changes::Action;
use expressions::Table;
use ir_types::items::Items;
use ir_types::syntax::Function;
use live_search::Incoming;
use mc_num::NoMemory;
use occurrences::occurrences;
use placement::Placement;
use point_graph::{Point, Points};
use std::alloc::Global;

/// What the placements so far make of each edge and each point.
#[derive(Drop)]
pub struct Moved {
    /// For each temporary the number of its expression.
    pub temps: Vec<u32>,
    /// For each edge the temporaries whose expressions are inserted on it.
    pub edges: Vec<Items<u32>>,
    /// For each point what becomes of it.
    pub actions: Vec<Action>,
}

/// `count` empty lists.
fn empty_lists(alloc: Global, count: usize) -> Result<Vec<Items<u32>>, NoMemory>
    ensures { IfOk result (λ lists. lists.items ≡ replicate count []) }
{
    let mut lists = Vec::new(alloc);
    for _i in 0..count {
        lists.push(Items::new(alloc))?;
    }
    Ok(lists)
}

/// `count` points that stay.
fn staying(alloc: Global, count: usize) -> Result<Vec<Action>, NoMemory>
    ensures { IfOk result (λ actions. actions.items ≡ replicate count Action.Stays) }
{
    Ok(vec![in alloc; Action::Stays; count]?)
}

/// Adds the temporary to the list of each of these edges.
fn insert_temp(edges: &mut Vec<Items<u32>>, inserted: &[usize], temp: u32) -> Result<(), NoMemory>
    requires within { All (λ edge. edge < length edges.old.items) inserted.now }
    requires differ { AllPairs (λ m n. m ≢ n) inserted.now }
    ensures { OnOk result (AddsTemp inserted.now temp edges.old.items edges.new.items) }
{
    for edge in inserted {
        edges[*edge].push(temp)?;
    }
    Ok(())
}

/// The number of the edge to the place behind this one of the block.
fn edge_behind(points: &Points, block: u32, place: u32) -> usize
    ensures { result ≡ edge_behind points.now.starts block place }
{
    match points.starts.get(block as usize) {
        Some(start) => start.edge as usize + place as usize + 1,
        None => place as usize + 1,
    }
}

/// Whether the temporary is stored behind a kept occurrence: whether it is live there, and not inserted on the way.
fn is_stored(points: &Points, marks: &Marks, point: u32) -> bool
    ensures { result ≡ stored_at points.now marks.now.inserted.keys marks.now.live.keys point }
{
    match points.points.get(point as usize) {
        Some(Point::Instr(block, place)) => {
            let behind = edge_behind(points, *block, *place);
            !has(&marks.inserted, behind) && has(&marks.live, point as usize + 1)
        }
        _ => false,
    }
}

/// What becomes of an occurrence of which this became by the placements before.
fn act(points: &Points, marks: &Marks, temp: u32, point: u32, before: Action) -> Action
    ensures { result ≡ acting points.now marks.now temp point before }
{
    if has(&marks.kept, point as usize) {
        if is_stored(points, marks, point) {
            Action::Stores(temp)
        } else {
            before
        }
    } else {
        Action::Loads(temp)
    }
}

/// Lets the placement act on each occurrence.
fn act_on_all(
    points: &Points,
    marks: &Marks,
    occurrences: &[u32],
    temp: u32,
    actions: &mut Vec<Action>,
)
    requires within { All (λ point. point < length actions.old.items) occurrences.now }
    requires differ { AllPairs (λ m n. m ≢ n) occurrences.now }
    ensures { ActsOn points.now marks.now occurrences.now temp actions.old.items actions.new.items }
{
    for point in occurrences {
        let place = *point as usize;
        actions[place] = act(points, marks, temp, *point, actions[place]);
    }
}

/// Adds the expression `x`, of which something is inserted or deleted.
fn add_move(
    points: &Points,
    marks: &Marks,
    occurrences: &[u32],
    x: u32,
    moved: &mut Moved,
) -> Result<(), NoMemory>
    requires occurrences { All (λ point. point < length moved.old.actions.items) occurrences.now }
    requires differ { AllPairs (λ m n. m ≢ n) occurrences.now }
    requires edges { All (λ edge. edge < length moved.old.edges.items) marks.now.inserted.keys }
    requires temps { length moved.old.temps.items < 2 ^ 32 }
    ensures { OnOk result (AddsMove points.now marks.now occurrences.now x moved.old moved.new) }
{
    let temp = moved.temps.len() as u32;
    moved.temps.push(x)?;
    insert_temp(&mut moved.edges, marks.inserted.as_slice(), temp)?;
    act_on_all(points, marks, occurrences, temp, &mut moved.actions);
    Ok(())
}

/// Adds the expression `x` with its placement, if something is inserted or deleted.
fn add_placement(
    alloc: Global,
    function: &Function<'_>,
    points: &Points,
    graph: &Incoming,
    table: &Table<'_, '_>,
    x: u32,
    occurrences: &[u32],
    placements: &[Placement],
    moved: &mut Moved,
) -> Result<(), NoMemory>
    requires defined { 0 < length function.now.blocks }
    requires points { ArePoints function.now points.now }
    requires graph { IsGraphOf points.now graph.now }
    requires table { IsTable function.now points.now table.now }
    requires expression { x < length table.now.exprs }
    requires occurrences { ArePlacesOf table.now.occurring x occurrences.now }
    requires placements { ArePlacementsOf function.now points.now table.now placements.now }
    requires moved { IsMoved function.now points.now table.now placements.now x moved.old }
    ensures { OnOk result (IsMoved function.now points.now table.now placements.now (x + 1) moved.new) }
{
    let placement = &placements[x as usize];
    let kept = set_of(alloc, placement.kept.as_slice())?;
    if is_needed(placement, occurrences, &kept) {
        let marks = marks_of(alloc, graph, placement, occurrences, kept)?;
        add_move(points, &marks, occurrences, x, moved)?;
    }
    Ok(())
}

fn nothing_moved(alloc: Global, edges: usize, points: usize) -> Result<Moved, NoMemory>
    ensures temps { IfOk result (λ moved. moved.temps.items ≡ []) }
    ensures edges { IfOk result (λ moved. moved.edges.items ≡ replicate edges []) }
    ensures actions { IfOk result (λ moved. moved.actions.items ≡ replicate points Action.Stays) }
{
    Ok(Moved {
        temps: Vec::new(alloc),
        edges: empty_lists(alloc, edges)?,
        actions: staying(alloc, points)?,
    })
}

/// What all placements make of each edge and each point.
pub fn all_moved(
    alloc: Global,
    function: &Function<'_>,
    points: &Points,
    table: &Table<'_, '_>,
    placements: &[Placement],
) -> Result<Moved, NoMemory>
    requires defined { 0 < length function.now.blocks }
    requires points { ArePoints function.now points.now }
    requires table { IsTable function.now points.now table.now }
    requires placements { ArePlacementsOf function.now points.now table.now placements.now }
    ensures { IfOk result (IsMoved function.now points.now table.now placements.now (length table.now.exprs)) }
{
    let lists = occurrences(alloc, table)?;
    let graph = graph_of(alloc, points)?;
    let mut moved = nothing_moved(alloc, points.edges.len(), points.points.len())?;
    for x in 0..table.len() {
        let occurrences = lists[x as usize].as_slice();
        add_placement(
            alloc,
            function,
            points,
            &graph,
            table,
            x,
            occurrences,
            placements,
            &mut moved,
        )?;
    }
    Ok(moved)
}
