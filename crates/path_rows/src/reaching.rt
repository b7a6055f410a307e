//! The states in which paths from Start reach points.

use crate::graphs::{Graph, Places, is_set, set, unset};
use expressions::Event;
use mc_num::NoMemory;
use std::alloc::Global;

/// For each point whether some path from Start reaches it with a write that has no kill after it, and whether some path
/// does without one; the point is not counted.
#[derive(Drop)]
pub struct States {
    pub valid: Vec<bool>,
    pub invalid: Vec<bool>,
}

impl States {
    fn reach(&mut self, point: usize, is_valid: bool) {
        if is_valid {
            set(&mut self.valid, point);
        } else {
            set(&mut self.invalid, point);
        }
    }
}

/// Whether a path is valid behind a point and one of its edges, where it reached the point valid or not.
fn is_valid_behind(
    graph: &Graph<'_>,
    writes: &Places,
    point: usize,
    edge: usize,
    is_valid: bool,
) -> bool {
    if is_set(&writes.points, point) || is_set(&writes.edges, edge) {
        true
    } else if graph.is(point, Event::Kills) {
        false
    } else {
        is_valid
    }
}

/// Goes along each edge from each state that is known to be reached.
fn go_on(graph: &Graph<'_>, writes: &Places, states: &mut States) {
    for (number, edge) in graph.edges.iter().enumerate() {
        let from = edge.from as usize;
        let to = edge.to as usize;
        if is_set(&states.valid, from) {
            states.reach(to, is_valid_behind(graph, writes, from, number, true));
        }
        if is_set(&states.invalid, from) {
            states.reach(to, is_valid_behind(graph, writes, from, number, false));
        }
    }
}

/// The states that paths from Start reach. Each point has two, and a round that finds none is the last.
pub fn reached_states(
    alloc: Global,
    graph: &Graph<'_>,
    writes: &Places,
) -> Result<States, NoMemory> {
    let mut states = States {
        valid: unset(alloc, graph.len())?,
        invalid: unset(alloc, graph.len())?,
    };
    states.reach(0, false);
    for _ in 0..graph.len() {
        go_on(graph, writes, &mut states);
        go_on(graph, writes, &mut states);
    }
    Ok(states)
}
