//! Early edges: where an occurrence becomes inevitable that some path has not computed.
ghost use Rattle.std.specs.Prelude.{◌≡◌, ℕ, ◌<◌, ◌^◌, ◌↔◌, length, map, replicate, vec_len, IfOk, IsTrue};
ghost use Rattle.flow_paths.specs.Paths.{ArcsWithin, Connects};
ghost use Rattle.flow_paths.specs.Spreads.{IsSet};
ghost use Rattle.placement.specs.Placements.{IsInevitable};
ghost use Rattle.best_placement.specs.Blocks.{HasEvent};
ghost use Rattle.lazy_motion.specs.Motion.{IsEarly};
ghost use Rattle.lazy_motion.specs.Steps.{computing_mark, event_at, UncomputedBehind, EarlyBehind, EarlyBits};

use expressions::Event;
use flow_paths::{Mark, unwritten};
use mc_num::NoMemory;
use std::alloc::Global;

/// For each arc, whether it is early, from whether each point is inevitable.
pub fn early_edges(
    alloc: Global,
    arcs: &[(u32, u32)],
    events: &[Event],
    inevitable: &[bool],
) -> Result<Vec<bool>, NoMemory>
    requires start { 0 < length events.now }
    requires numbered { length events.now < 2 ^ 32 }
    requires within { ArcsWithin arcs.now (length events.now) }
    requires reached { (v : ℕ) → v < length events.now → Connects arcs.now 0 v }
    requires len { length inevitable.now ≡ length events.now }
    requires inevitable { (v : ℕ) → v < length events.now → IsSet inevitable.now v ↔ IsInevitable arcs.now (HasEvent (event_at events.now)) v }
    ensures len { IfOk result (λ bits. vec_len bits ≡ length arcs.now) }
    ensures bits { IfOk result (λ bits. (e : ℕ) → e < length arcs.now → IsSet bits.items e ↔ IsEarly arcs.now (HasEvent (event_at events.now)) e) }
{
    let at_point = computing_marks(alloc, events)?;
    let at_edge = passing_marks(alloc, arcs.len())?;
    let uncomputed = unwritten(alloc, arcs, &at_point, &at_edge)?;
    early_bits(alloc, arcs, events, inevitable, &uncomputed)
}

/// For each arc, whether it is early, by the bits of the points.
fn early_bits(
    alloc: Global,
    arcs: &[(u32, u32)],
    events: &[Event],
    inevitable: &[bool],
    uncomputed: &[bool],
) -> Result<Vec<bool>, NoMemory>
    requires within { ArcsWithin arcs.now (length events.now) }
    requires inevitable { length inevitable.now ≡ length events.now }
    requires uncomputed { length uncomputed.now ≡ length events.now }
    ensures { IfOk result (λ bits. EarlyBits arcs.now events.now inevitable.now uncomputed.now (length arcs.now) bits.items) }
{
    let mut bits = Vec::new(alloc);
    for (from, to) in arcs {
        let early = is_early(
            events[*from as usize],
            inevitable[*to as usize],
            inevitable[*from as usize],
            uncomputed[*from as usize],
        );
        bits.push(early)?;
    }
    Ok(bits)
}

/// Whether an edge is early that leaves a point with this event, from whether its end and its beginning are inevitable,
/// and whether some path is not computed before it.
fn is_early(event: Event, at_end: bool, at_beginning: bool, uncomputed: bool) -> bool
    ensures { IsTrue result ↔ EarlyBehind event at_end at_beginning uncomputed }
{
    at_end && !at_beginning && is_uncomputed_behind(event, uncomputed)
}

/// Whether some path is not computed behind a point with this event, from whether some is not before it.
fn is_uncomputed_behind(event: Event, before: bool) -> bool
    ensures { IsTrue result ↔ UncomputedBehind event before }
{
    match event {
        Event::Occurs => false,
        Event::Kills => true,
        Event::Bars | Event::Passes => before,
    }
}

/// The marks of the points by which occurrences compute the value.
fn computing_marks(alloc: Global, events: &[Event]) -> Result<Vec<Mark>, NoMemory>
    ensures { IfOk result (λ marks. marks.items ≡ map computing_mark events.now) }
{
    Ok(
        events
            .iter()
            .map(|event| mark_computing(*event))
            .collect(alloc)?,
    )
}

/// The mark of a point by which occurrences compute the value.
fn mark_computing(event: Event) -> Mark
    ensures { result ≡ computing_mark event }
{
    match event {
        Event::Occurs => Mark::Write,
        Event::Kills => Mark::Kill,
        Event::Bars | Event::Passes => Mark::Pass,
    }
}

/// Marks that pass, one for each of `count` arcs.
fn passing_marks(alloc: Global, count: usize) -> Result<Vec<Mark>, NoMemory>
    ensures { IfOk result (λ marks. marks.items ≡ replicate count Mark.Pass) }
{
    Ok(vec![in alloc; Mark::Pass; count]?)
}
