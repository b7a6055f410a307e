//! Delayed edges and points: where every path has crossed an early edge since its last occurrence.
ghost use Rattle.std.specs.Prelude.{◌≡◌, ℕ, ◌<◌, ◌^◌, ◌↔◌, ◌⊎◌, length, map, vec_len, IfOk, IsTrue};
ghost use Rattle.flow_paths.specs.Paths.{ArcsWithin, Connects};
ghost use Rattle.flow_paths.specs.Spreads.{IsSet};
ghost use Rattle.best_placement.specs.Blocks.{HasEvent};
ghost use Rattle.lazy_motion.specs.Motion.{IsEarly, IsDelayedOn, IsDelayedAt};
ghost use Rattle.lazy_motion.specs.Steps.{ending_mark, beginning_mark, event_at, DelayedBehind, DelayedBits, EndsUndelayed};

use expressions::Event;
use flow_paths::{Mark, unwritten};
use mc_num::NoMemory;
use std::alloc::Global;

/// For each arc, whether it is delayed, from whether it is early.
pub fn delayed_edges(
    alloc: Global,
    arcs: &[(u32, u32)],
    events: &[Event],
    early: &[bool],
) -> Result<Vec<bool>, NoMemory>
    requires start { 0 < length events.now }
    requires numbered { length events.now < 2 ^ 32 }
    requires within { ArcsWithin arcs.now (length events.now) }
    requires reached { (v : ℕ) → v < length events.now → Connects arcs.now 0 v }
    requires len { length early.now ≡ length arcs.now }
    requires early { (e : ℕ) → e < length arcs.now → IsSet early.now e ↔ IsEarly arcs.now (HasEvent (event_at events.now)) e }
    ensures len { IfOk result (λ bits. vec_len bits ≡ length arcs.now) }
    ensures bits { IfOk result (λ bits. (e : ℕ) → e < length arcs.now → IsSet bits.items e ↔ IsDelayedOn arcs.now (HasEvent (event_at events.now)) e) }
{
    let at_point = ending_marks(alloc, events)?;
    let at_edge = beginning_marks(alloc, early)?;
    let undelayed = unwritten(alloc, arcs, &at_point, &at_edge)?;
    delayed_bits(alloc, arcs, events, early, &undelayed)
}

/// For each arc, whether it is delayed, by the bits of early arcs and of undelayed points.
fn delayed_bits(
    alloc: Global,
    arcs: &[(u32, u32)],
    events: &[Event],
    early: &[bool],
    undelayed: &[bool],
) -> Result<Vec<bool>, NoMemory>
    requires within { ArcsWithin arcs.now (length events.now) }
    requires early { length early.now ≡ length arcs.now }
    requires undelayed { length undelayed.now ≡ length events.now }
    ensures { IfOk result (λ bits. DelayedBits arcs.now events.now early.now undelayed.now (length arcs.now) bits.items) }
{
    let mut bits = Vec::new(alloc);
    for (arc, (from, _)) in arcs.iter().enumerate() {
        let delayed = is_delayed_behind(
            events[*from as usize],
            early[arc],
            undelayed[*from as usize],
        );
        bits.push(delayed)?;
    }
    Ok(bits)
}

/// Whether an edge is delayed that leaves a point with this event.
fn is_delayed_behind(event: Event, early: bool, undelayed: bool) -> bool
    ensures { IsTrue result ↔ DelayedBehind event early undelayed }
{
    match event {
        Event::Occurs => early,
        Event::Kills | Event::Bars | Event::Passes => early || !undelayed,
    }
}

/// The marks of the points by which occurrences end a delay.
fn ending_marks(alloc: Global, events: &[Event]) -> Result<Vec<Mark>, NoMemory>
    ensures { IfOk result (λ marks. marks.items ≡ map ending_mark events.now) }
{
    Ok(
        events
            .iter()
            .map(|event| mark_ending(*event))
            .collect(alloc)?,
    )
}

/// The mark of a point by which occurrences end a delay.
fn mark_ending(event: Event) -> Mark
    ensures { result ≡ ending_mark event }
{
    match event {
        Event::Occurs => Mark::Kill,
        Event::Kills | Event::Bars | Event::Passes => Mark::Pass,
    }
}

/// The marks of the edges by which early ones begin a delay.
fn beginning_marks(alloc: Global, early: &[bool]) -> Result<Vec<Mark>, NoMemory>
    ensures { IfOk result (λ marks. marks.items ≡ map beginning_mark early.now) }
{
    Ok(early.iter().map(|bit| mark_beginning(*bit)).collect(alloc)?)
}

/// The mark of an edge by which early ones begin a delay.
fn mark_beginning(early: bool) -> Mark
    ensures { result ≡ beginning_mark early }
{
    if early { Mark::Write } else { Mark::Pass }
}

/// For each point, whether it is not delayed, from whether each arc is delayed.
pub fn undelayed_points(
    alloc: Global,
    arcs: &[(u32, u32)],
    events: &[Event],
    delayed: &[bool],
) -> Result<Vec<bool>, NoMemory>
    requires start { 0 < length events.now }
    requires within { ArcsWithin arcs.now (length events.now) }
    requires len { length delayed.now ≡ length arcs.now }
    requires delayed { (e : ℕ) → e < length arcs.now → IsSet delayed.now e ↔ IsDelayedOn arcs.now (HasEvent (event_at events.now)) e }
    ensures len { IfOk result (λ bits. vec_len bits ≡ length events.now) }
    ensures bits { IfOk result (λ bits. (v : ℕ) → v < length events.now → IsSet bits.items v ↔ ¬ (IsDelayedAt arcs.now (HasEvent (event_at events.now)) v)) }
{
    let start = start_alone(alloc, events.len())?;
    Ok(end_delays(arcs, delayed, start))
}

/// The points at which an undelayed arc ends, besides those that are set.
fn end_delays(arcs: &[(u32, u32)], delayed: &[bool], mut bits: Vec<bool>) -> Vec<bool>
    requires within { ArcsWithin arcs.now (vec_len bits) }
    requires len { length delayed.now ≡ length arcs.now }
    ensures len { vec_len result ≡ vec_len bits }
    ensures bits { (v : ℕ) → IsSet result.items v ↔ (IsSet bits.items v ⊎ EndsUndelayed arcs.now delayed.now (length arcs.now) v) }
{
    end_delays_in(arcs, delayed, &mut bits);
    bits
}

/// Sets the bits of the points at which an undelayed arc ends.
fn end_delays_in(arcs: &[(u32, u32)], delayed: &[bool], bits: &mut [bool])
    requires within { ArcsWithin arcs.now (length bits.old) }
    requires len { length delayed.now ≡ length arcs.now }
    ensures { (v : ℕ) → IsSet bits.new v ↔ (IsSet bits.old v ⊎ EndsUndelayed arcs.now delayed.now (length arcs.now) v) }
{
    for (arc, (_, to)) in arcs.iter().enumerate() {
        if !delayed[arc] {
            bits[*to as usize] = true;
        }
    }
}

/// The bit of point 0 alone, among those of `count` points.
fn start_alone(alloc: Global, count: usize) -> Result<Vec<bool>, NoMemory>
    requires { 0 < count }
    ensures len { IfOk result (λ bits. vec_len bits ≡ count) }
    ensures bits { IfOk result (λ bits. (v : ℕ) → IsSet bits.items v ↔ (v ≡ 0)) }
{
    let mut bits = vec![in alloc; false; count]?;
    bits[0] = true;
    Ok(bits)
}
