//! Placements, and what is said of them over all paths.

use crate::graphs::{Graph, Places, is_set, set, unset};
use crate::meeting::all_that_meet;
use crate::reaching::reached_states;
use expressions::Event;
use ir_types::items::Items;
use mc_num::NoMemory;
use placement::Placement;
use std::alloc::Global;

/// Which edges and which occurrences write.
fn writes(alloc: Global, graph: &Graph<'_>, placement: &Placement) -> Result<Places, NoMemory> {
    let mut edges = unset(alloc, graph.edges.len())?;
    for edge in placement.inserted.as_slice() {
        set(&mut edges, *edge as usize);
    }
    Ok(Places {
        points: kept_points(alloc, graph, placement.kept.as_slice())?,
        edges,
    })
}

/// Which occurrences are kept.
fn kept_points(alloc: Global, graph: &Graph<'_>, kept: &[u32]) -> Result<Vec<bool>, NoMemory> {
    let mut points = unset(alloc, graph.len())?;
    for point in kept {
        if graph.is(*point as usize, Event::Occurs) {
            set(&mut points, *point as usize);
        }
    }
    Ok(points)
}

/// Which occurrences are deleted.
fn deleted(alloc: Global, graph: &Graph<'_>, writes: &Places) -> Result<Vec<bool>, NoMemory> {
    let mut bits = Vec::new(alloc);
    for point in 0..graph.len() {
        bits.push(graph.is(point, Event::Occurs) && !is_set(&writes.points, point))?;
    }
    Ok(bits)
}

/// What a placement comes to: the first deleted occurrence that some path reaches invalid, and the points from which
/// some path meets a deleted occurrence with no write before it.
#[derive(Drop)]
pub struct Outcome {
    pub invalid: Option<u32>,
    pub live: Vec<bool>,
}

/// The smallest number of a bit that is set in both lists.
fn first_of_both(left: &[bool], right: &[bool]) -> Option<u32> {
    for (number, (first, second)) in left.iter().zip(right).enumerate() {
        if *first && *second {
            return u32::try_from(number).ok();
        }
    }
    None
}

/// What the placement comes to.
pub fn outcome_of(
    alloc: Global,
    graph: &Graph<'_>,
    placement: &Placement,
) -> Result<Outcome, NoMemory> {
    let writes = writes(alloc, graph, placement)?;
    let deleted = deleted(alloc, graph, &writes)?;
    let states = reached_states(alloc, graph, &writes)?;
    Ok(Outcome {
        invalid: first_of_both(&deleted, &states.invalid),
        live: all_that_meet(alloc, graph, &writes, &deleted)?,
    })
}

/// The numbers of the occurrences.
fn occurrences(alloc: Global, graph: &Graph<'_>) -> Result<Vec<u32>, NoMemory> {
    let mut numbers = Vec::new(alloc);
    let mut number: u32 = 0;
    for event in &graph.events {
        if *event == Event::Occurs {
            numbers.push(number)?;
        }
        number = number.saturating_add(1);
    }
    Ok(numbers)
}

fn placed(alloc: Global, inserted: &[u32], kept: &[u32]) -> Result<Placement, NoMemory> {
    Ok(Placement {
        inserted: Items::copied(alloc, inserted)?,
        kept: Items::copied(alloc, kept)?,
    })
}

/// None kept, all kept, the first kept, and with none kept each edge by itself inserted.
pub fn placements(alloc: Global, graph: &Graph<'_>) -> Result<Vec<Placement>, NoMemory> {
    let all = occurrences(alloc, graph)?;
    let first = all.get(..1).unwrap_or(&[]);
    let mut list = Vec::new(alloc);
    list.push(placed(alloc, &[], &[])?)?;
    list.push(placed(alloc, &[], &all)?)?;
    list.push(placed(alloc, &[], first)?)?;
    let mut edge: u32 = 0;
    for _ in graph.edges {
        list.push(placed(alloc, &[edge], &[])?)?;
        edge = edge.saturating_add(1);
    }
    Ok(list)
}
