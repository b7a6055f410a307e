//! The marks of points and edges, by what they do to the value that a placement keeps.
ghost use Rattle.std.specs.Prelude.{◌≡◌, ◌<◌, ◌↔◌, All, IfOk, IsTrue, length, map, replicate};
ghost use Rattle.placement.specs.Placements.{arcs_of};
ghost use Rattle.placement.specs.Marking.{mark_of_event, EdgeMarks, PointMarks};
ghost use Rattle.placement.specs.Marked.{IsMarked};

use crate::placements::Placement;
use expressions::Event;
use flow_paths::Mark;
use mc_num::NoMemory;
use point_graph::Edge;
use std::alloc::Global;

/// A point graph with what each point is to an expression, and what points and edges do to the value that a placement
/// keeps.
#[derive(Drop)]
pub struct Marked {
    pub arcs: Vec<(u32, u32)>,
    pub events: Vec<Event>,
    pub at_point: Vec<Mark>,
    pub at_edge: Vec<Mark>,
}

/// The graph of these edges, marked by a placement.
pub fn mark_all(
    alloc: Global,
    edges: &[Edge],
    events: Vec<Event>,
    placement: &Placement,
) -> Result<Marked, NoMemory>
    requires inserted { All (λ edge. edge < length edges.now) placement.now.inserted }
    requires kept { All (λ point. point < length events.items) placement.now.kept }
    ensures { IfOk result (λ marked. IsMarked edges.now events.items placement.now marked) }
{
    let arcs = arcs_from(alloc, edges)?;
    let at_edge = mark_edges(alloc, edges.len(), placement.inserted.as_slice())?;
    let at_point = mark_points(alloc, &events, placement.kept.as_slice())?;
    Ok(Marked {
        arcs,
        events,
        at_point,
        at_edge,
    })
}

/// The ends of each edge.
fn arcs_from(alloc: Global, edges: &[Edge]) -> Result<Vec<(u32, u32)>, NoMemory>
    ensures { IfOk result (λ arcs. arcs.items ≡ arcs_of edges.now) }
{
    Ok(
        edges
            .iter()
            .map(|edge| (edge.from, edge.to))
            .collect(alloc)?,
    )
}

/// The mark of a point that isn't kept.
fn mark_of(event: Event) -> Mark
    ensures { result ≡ mark_of_event event }
{
    match event {
        Event::Kills => Mark::Kill,
        Event::Occurs | Event::Bars | Event::Passes => Mark::Pass,
    }
}

/// Marks that pass, one for each of `count` places.
fn passing_marks(alloc: Global, count: usize) -> Result<Vec<Mark>, NoMemory>
    ensures { IfOk result (λ marks. marks.items ≡ replicate count Mark.Pass) }
{
    Ok(vec![in alloc; Mark::Pass; count]?)
}

/// The marks of `count` edges: inserted ones write.
fn mark_edges(alloc: Global, count: usize, inserted: &[u32]) -> Result<Vec<Mark>, NoMemory>
    requires { All (λ e. e < count) inserted.now }
    ensures { IfOk result (λ marks. EdgeMarks count inserted.now marks.items) }
{
    let mut marks = passing_marks(alloc, count)?;
    for edge in inserted {
        marks[*edge as usize] = Mark::Write;
    }
    Ok(marks)
}

/// The marks of points that aren't kept.
fn unkept_marks(alloc: Global, events: &[Event]) -> Result<Vec<Mark>, NoMemory>
    ensures { IfOk result (λ marks. marks.items ≡ map mark_of_event events.now) }
{
    Ok(events.iter().map(|event| mark_of(*event)).collect(alloc)?)
}

/// The marks of the points: kept occurrences write.
fn mark_points(alloc: Global, events: &[Event], kept: &[u32]) -> Result<Vec<Mark>, NoMemory>
    requires { All (λ v. v < length events.now) kept.now }
    ensures { IfOk result (λ marks. PointMarks events.now kept.now marks.items) }
{
    let mut marks = unkept_marks(alloc, events)?;
    for point in kept {
        if let Event::Occurs = events[*point as usize] {
            marks[*point as usize] = Mark::Write;
        }
    }
    Ok(marks)
}

/// Whether a point with this event and this mark is a deleted occurrence.
pub fn is_deleted(event: Event, mark: Mark) -> bool
    ensures { IsTrue result ↔ ((event ≡ Event.Occurs) × ¬ (mark ≡ Mark.Write)) }
{
    match (event, mark) {
        (Event::Occurs, Mark::Kill | Mark::Pass) => true,
        _ => false,
    }
}
