//! What paths from a point meet.

use crate::graphs::{Graph, Places, is_set, set, unset};
use mc_num::NoMemory;
use std::alloc::Global;

/// Goes along each edge that does not stop, from each reached point that does not.
fn go_on(graph: &Graph<'_>, stops: &Places, reached: &mut Vec<bool>) {
    for (number, edge) in graph.edges.iter().enumerate() {
        let from = edge.from as usize;
        let stopped = is_set(&stops.points, from) || is_set(&stops.edges, number);
        if is_set(reached, from) && !stopped {
            set(reached, edge.to as usize);
        }
    }
}

/// Whether some goal is reached.
fn has_goal(reached: &[bool], goals: &[bool]) -> bool {
    for (point, goal) in goals.iter().enumerate() {
        if *goal && is_set(reached, point) {
            return true;
        }
    }
    false
}

/// Whether some path from the point meets a goal, with no stop before it.
fn meets(
    alloc: Global,
    graph: &Graph<'_>,
    stops: &Places,
    goals: &[bool],
    point: usize,
) -> Result<bool, NoMemory> {
    let mut reached = unset(alloc, graph.len())?;
    set(&mut reached, point);
    for _ in 0..graph.len() {
        go_on(graph, stops, &mut reached);
    }
    Ok(has_goal(&reached, goals))
}

/// For each point whether some path from it meets a goal, with no stop before it.
pub fn all_that_meet(
    alloc: Global,
    graph: &Graph<'_>,
    stops: &Places,
    goals: &[bool],
) -> Result<Vec<bool>, NoMemory> {
    let mut bits = Vec::new(alloc);
    for point in 0..graph.len() {
        bits.push(meets(alloc, graph, stops, goals, point)?)?;
    }
    Ok(bits)
}
