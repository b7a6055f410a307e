//! What blocks do to an expression, and the bits at their ends.

use crate::graphs::{Graph, is_set};
use expressions::Event;
use local_sets::BlockSets;
use mc_num::NoMemory;
use point_graph::Point;
use std::alloc::Global;

fn is_in_block(point: Point, block: u32) -> bool {
    match point {
        Point::Start => false,
        Point::Head(own) | Point::Instr(own, _) | Point::Term(own) => own == block,
    }
}

/// The events of the block's points that occur or kill, in order.
fn own_events(alloc: Global, graph: &Graph<'_>, block: u32) -> Result<Vec<Event>, NoMemory> {
    let mut own = Vec::new(alloc);
    for (point, event) in graph.points.iter().zip(&graph.events) {
        if is_in_block(*point, block) && matches!(event, Event::Occurs | Event::Kills) {
            own.push(*event)?;
        }
    }
    Ok(own)
}

/// How many occurrences have a kill as the event before them.
fn forced(events: &[Event]) -> u32 {
    let mut count: u32 = 0;
    for (before, event) in events.iter().zip(events.iter().skip(1)) {
        if *before == Event::Kills && *event == Event::Occurs {
            count = count.saturating_add(1);
        }
    }
    count
}

/// The sets of each of these blocks.
pub fn all_sets(
    alloc: Global,
    graph: &Graph<'_>,
    blocks: &[u32],
) -> Result<Vec<BlockSets>, NoMemory> {
    let mut sets = Vec::new(alloc);
    for block in blocks {
        let own = own_events(alloc, graph, *block)?;
        sets.push(BlockSets {
            first: own.first().copied().unwrap_or(Event::Passes),
            last: own.last().copied().unwrap_or(Event::Passes),
            forced: forced(&own),
        })?;
    }
    Ok(sets)
}

/// The bits of the head and the terminator of each block.
pub fn at_ends(alloc: Global, graph: &Graph<'_>, bits: &[bool]) -> Result<Vec<bool>, NoMemory> {
    let mut ends = Vec::new(alloc);
    for (number, point) in graph.points.iter().enumerate() {
        if matches!(point, Point::Head(_) | Point::Term(_)) {
            ends.push(is_set(bits, number))?;
        }
    }
    Ok(ends)
}
