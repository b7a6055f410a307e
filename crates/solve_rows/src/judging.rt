//! What a placement comes to.
ghost use Rattle.std.specs.Prelude.{◌<◌, All, IsTrue, length};
ghost use Rattle.std.specs.List.Sorted.{IsStrictlyIncreasing};
ghost use Rattle.solve_rows.specs.Asking.{IsAsked};

use crate::question::Question;
use mc_num::NoMemory;
use placement::{Placement, cost, first_invalid, live_points};
use point_graph::{Edge, Points};
use std::alloc::Global;

/// Whether a placement is correct, what it costs, and the points and the edges at which it is live.
#[derive(Drop)]
pub struct Judged {
    pub is_correct: bool,
    pub cost: u128,
    points: Vec<bool>,
    edges: Vec<bool>,
}

/// Whether each number is below the bound.
fn are_below(numbers: &[u32], bound: usize) -> bool
    ensures { IsTrue result → All (λ n. n < bound) numbers.now }
{
    numbers.iter().all(|n| (*n as usize) < bound)
}

/// Whether each number is below the next.
fn are_ascending(numbers: &[u32]) -> bool
    ensures { IsTrue result → IsStrictlyIncreasing numbers.now }
{
    for index in 1..numbers.len() {
        if numbers[index] <= numbers[index - 1] {
            return false;
        }
    }
    true
}

/// Whether a placement names ascending edges and points of the function.
fn is_placement(points: &Points, placement: &Placement) -> bool
    ensures inserted_ascending { IsTrue result → IsStrictlyIncreasing placement.now.inserted }
    ensures inserted { IsTrue result → All (λ edge. edge < length points.now.edges) placement.now.inserted }
    ensures kept_ascending { IsTrue result → IsStrictlyIncreasing placement.now.kept }
    ensures kept { IsTrue result → All (λ point. point < length points.now.points) placement.now.kept }
{
    let inserted = placement.inserted.as_slice();
    let kept = placement.kept.as_slice();
    are_ascending(inserted)
        && are_below(inserted, points.edges.len())
        && are_ascending(kept)
        && are_below(kept, points.points.len())
}

/// Which edges aren't inserted and have a live end.
fn live_edges(
    alloc: Global,
    edges: &[Edge],
    inserted: &[u32],
    live: &[bool],
) -> Result<Vec<bool>, NoMemory> {
    let mut bits = Vec::new(alloc);
    let mut number: u32 = 0;
    for edge in edges {
        let has_live_end = live.get(edge.to as usize).copied().unwrap_or(false);
        bits.push(has_live_end && !inserted.contains(&number))?;
        number = number.saturating_add(1);
    }
    Ok(bits)
}

/// Whether the second list has each bit that the first has.
fn are_within(bits: &[bool], others: &[bool]) -> bool {
    for (bit, other) in bits.iter().zip(others) {
        if *bit && !*other {
            return false;
        }
    }
    true
}

impl Judged {
    /// What a placement comes to; `None` if it names no ascending edges and points of the function.
    pub fn of(
        alloc: Global,
        question: &Question<'_, '_>,
        placement: &Placement,
    ) -> Result<Option<Judged>, NoMemory>
        requires { IsAsked question.now }
    {
        let Question {
            function,
            points,
            table,
            counts,
            e,
        } = *question;
        if !is_placement(points, placement) {
            return Ok(None);
        }
        let invalid = first_invalid(alloc, function, points, table, e, placement)?;
        let live = live_points(alloc, function, points, table, e, placement)?;
        let inserted = placement.inserted.as_slice();
        Ok(Some(Judged {
            is_correct: invalid.is_none(),
            cost: cost(function, points, counts, placement),
            edges: live_edges(alloc, points.edges.as_slice(), inserted, &live)?,
            points: live,
        }))
    }

    /// Whether the other one is live wherever this one is.
    pub fn lives_within(&self, other: &Judged) -> bool {
        are_within(&self.points, &other.points) && are_within(&self.edges, &other.edges)
    }
}
