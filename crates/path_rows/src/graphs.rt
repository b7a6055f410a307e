//! The points and the edges of a function, with what each point is to one expression.

use expressions::Event;
use mc_num::NoMemory;
use point_graph::{Edge, Point};
use std::alloc::Global;

/// Points by their numbers, edges by theirs, and the event of each point.
#[derive(Drop)]
pub struct Graph<'p> {
    pub points: &'p [Point],
    pub edges: &'p [Edge],
    pub events: Vec<Event>,
}

/// A bit for each point and one for each edge.
#[derive(Drop)]
pub struct Places {
    pub points: Vec<bool>,
    pub edges: Vec<bool>,
}

/// Whether the bit of this number is there and set.
pub fn is_set(bits: &[bool], number: usize) -> bool {
    match bits.get(number) {
        Some(bit) => *bit,
        None => false,
    }
}

/// Sets the bit of this number, if it is there.
pub fn set(bits: &mut Vec<bool>, number: usize) {
    if let Some(bit) = bits.get_mut(number) {
        *bit = true;
    }
}

/// `count` bits, none of them set.
pub fn unset(alloc: Global, count: usize) -> Result<Vec<bool>, NoMemory> {
    Ok(vec![in alloc; false; count]?)
}

impl<'p> Graph<'p> {
    /// How many points there are.
    pub fn len(&self) -> usize {
        self.events.len()
    }

    /// Whether the point has this event.
    pub fn is(&self, point: usize, event: Event) -> bool {
        match self.events.get(point) {
            Some(there) => *there == event,
            None => false,
        }
    }

    /// For each point whether it has this event.
    pub fn all(&self, alloc: Global, event: Event) -> Result<Vec<bool>, NoMemory> {
        let mut bits = Vec::new(alloc);
        for there in &self.events {
            bits.push(*there == event)?;
        }
        Ok(bits)
    }
}
