//! All placements of an expression.

use crate::question::Question;
use ir_types::items::Items;
use mc_num::NoMemory;
use placement::Placement;
use point_graph::Edge;
use std::alloc::Global;

/// The most places of which all sets are looked at.
const MOST_PLACES: usize = 16;

/// The places of an expression: the edges where it can be inserted, and then the points where it occurs.
#[derive(Drop)]
pub struct Places {
    edges: Vec<u32>,
    occurrences: Vec<u32>,
}

/// The numbers of the edges.
fn edges(alloc: Global, edges: &[Edge]) -> Result<Vec<u32>, NoMemory> {
    let mut numbers = Vec::new(alloc);
    let mut number: u32 = 0;
    for _edge in edges {
        numbers.push(number)?;
        number = number.saturating_add(1);
    }
    Ok(numbers)
}

/// The points where an expression occurs.
fn occurrences(alloc: Global, occurring: &[Option<u32>], e: u32) -> Result<Vec<u32>, NoMemory> {
    let mut points = Vec::new(alloc);
    let mut point: u32 = 0;
    for there in occurring {
        if *there == Some(e) {
            points.push(point)?;
        }
        point = point.saturating_add(1);
    }
    Ok(points)
}

/// Whether a place is in a set, which is given by the bits of a number.
fn is_in(set: u32, place: usize) -> bool {
    place < 32 && (set >> place) & 1 == 1
}

/// Those of the numbers whose places, from `first` on, are in the set.
fn chosen(alloc: Global, numbers: &[u32], set: u32, first: usize) -> Result<Items<u32>, NoMemory> {
    let mut list = Vec::new(alloc);
    for (index, number) in numbers.iter().enumerate() {
        if is_in(set, index.saturating_add(first)) {
            list.push(*number)?;
        }
    }
    Ok(Items::from(list))
}

impl Places {
    /// The places of the expression.
    pub fn of(alloc: Global, question: &Question<'_, '_>) -> Result<Places, NoMemory> {
        Ok(Places {
            edges: edges(alloc, question.points.edges.as_slice())?,
            occurrences: occurrences(alloc, question.table.occurring(), question.e)?,
        })
    }

    /// How many sets of places there are; `None` where they are too many.
    pub fn sets(&self) -> Option<u32> {
        let count = self.edges.len().saturating_add(self.occurrences.len());
        if count > MOST_PLACES {
            return None;
        }
        Some(1 << count as u32)
    }

    /// The placement that a set of places makes.
    pub fn placement(&self, alloc: Global, set: u32) -> Result<Placement, NoMemory> {
        Ok(Placement {
            inserted: chosen(alloc, &self.edges, set, 0)?,
            kept: chosen(alloc, &self.occurrences, set, self.edges.len())?,
        })
    }
}
