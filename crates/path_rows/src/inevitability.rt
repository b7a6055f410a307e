//! The points from which an expression is sure to occur, by the rule.

use crate::graphs::{Graph, is_set, unset};
use expressions::Event;
use mc_num::NoMemory;
use std::alloc::Global;

/// Whether the point has a successor, and all of its successors have set bits.
fn leads_all_to(graph: &Graph<'_>, bits: &[bool], point: usize) -> bool {
    let mut has_successor = false;
    for edge in graph.edges {
        if edge.from as usize == point {
            has_successor = true;
            if !is_set(bits, edge.to as usize) {
                return false;
            }
        }
    }
    has_successor
}

/// Whether the point is inevitable within one edge more than those with set bits are.
fn is_within(graph: &Graph<'_>, bits: &[bool], point: usize) -> bool {
    if point == 0 {
        return false;
    }
    if graph.is(point, Event::Occurs) {
        return true;
    }
    !graph.is(point, Event::Kills)
        && !graph.is(point, Event::Bars)
        && leads_all_to(graph, bits, point)
}

fn one_more(alloc: Global, graph: &Graph<'_>, bits: &[bool]) -> Result<Vec<bool>, NoMemory> {
    let mut more = Vec::new(alloc);
    for point in 0..graph.len() {
        more.push(is_within(graph, bits, point))?;
    }
    Ok(more)
}

/// The points that are inevitable within no more edges than there are points.
pub fn inevitable(alloc: Global, graph: &Graph<'_>) -> Result<Vec<bool>, NoMemory> {
    // Within no edge it is the rule where no successor is.
    let mut bits = one_more(alloc, graph, &unset(alloc, graph.len())?)?;
    for _ in 0..graph.len() {
        bits = one_more(alloc, graph, &bits)?;
    }
    Ok(bits)
}
