//! A placement beside all placements.
ghost use Rattle.solve_rows.specs.Asking.{IsAsked};

use crate::judging::Judged;
use crate::listing::Places;
use crate::question::Question;
use mc_num::NoMemory;
use placement::Placement;
use std::alloc::Global;

/// What was seen of all placements of an expression.
#[derive(Clone, Copy)]
pub struct Tally {
    /// How many there are.
    pub all: u32,
    pub correct: u32,
    /// How many correct ones cost less than the given one.
    pub cheaper: u32,
    /// How many correct ones cost as much.
    pub as_cheap: u32,
    /// How many of those aren't live somewhere where the given one is.
    pub shorter: u32,
    /// How many correct ones are the given one.
    pub same: u32,
}

/// Whether two placements are the same.
fn are_same(one: &Placement, other: &Placement) -> bool {
    one.inserted.as_slice() == other.inserted.as_slice()
        && one.kept.as_slice() == other.kept.as_slice()
}

/// Adds one if it is to be counted.
fn count(number: &mut u32, is_counted: bool) {
    if is_counted {
        *number = number.saturating_add(1);
    }
}

impl Tally {
    /// Counts another placement beside the given one.
    fn add(&mut self, given: &Judged, other: &Judged, is_same: bool) {
        let is_as_cheap = other.cost == given.cost;
        count(&mut self.all, true);
        if other.is_correct {
            count(&mut self.correct, true);
            count(&mut self.cheaper, other.cost < given.cost);
            count(&mut self.as_cheap, is_as_cheap);
            count(&mut self.shorter, is_as_cheap && !given.lives_within(other));
            count(&mut self.same, is_same);
        }
    }

    /// Whether the given placement is the best one.
    pub fn is_best(&self) -> bool {
        self.same == 1 && self.cheaper == 0 && self.shorter == 0
    }
}

/// What is seen of all placements beside the given one; `None` where they are too many.
pub fn compare(
    alloc: Global,
    question: &Question<'_, '_>,
    given: &Placement,
    judged: &Judged,
) -> Result<Option<Tally>, NoMemory>
    requires { IsAsked question.now }
{
    let places = Places::of(alloc, question)?;
    let Some(sets) = places.sets() else {
        return Ok(None);
    };
    let mut tally = Tally {
        all: 0,
        correct: 0,
        cheaper: 0,
        as_cheap: 0,
        shorter: 0,
        same: 0,
    };
    for set in 0..sets {
        let other = places.placement(alloc, set)?;
        if let Some(own) = Judged::of(alloc, question, &other)? {
            tally.add(judged, &own, are_same(given, &other));
        }
    }
    Ok(Some(tally))
}
