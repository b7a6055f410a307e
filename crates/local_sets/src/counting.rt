//! The points from which every way leads to an occurrence, by counting arcs to points that aren't known yet.
ghost use Rattle.std.specs.Prelude.{◌≡◌, ◌<◌, ◌^◌, ◌↔◌, ℕ, false, [], IfOk, IsTrue, length, map, replicate, vec_len};
ghost use Rattle.flow_paths.specs.Paths.{ArcsWithin};
ghost use Rattle.flow_paths.specs.Spreads.{IsSet};
ghost use Rattle.placement.specs.Placements.{IsInevitable};
ghost use Rattle.local_sets.specs.Counting.{EventAt, AreSources, AreCounts, AreStarts, AreFree, IsFree, IsStart};

use expressions::Event;
use mc_num::NoMemory;
use std::alloc::Global;

/// For each point, whether it is inevitable, where the events of the points are given.
pub fn inevitable_points(
    alloc: Global,
    arcs: &[(u32, u32)],
    events: &[Event],
) -> Result<Vec<bool>, NoMemory>
    requires within { ArcsWithin arcs.now (length events.now) }
    requires numbered { length events.now < 2 ^ 32 }
    requires few { length arcs.now < 2 ^ 32 }
    ensures len { IfOk result (λ bits. vec_len bits ≡ length events.now) }
    ensures bits { IfOk result (λ bits. (v : ℕ) → v < length events.now → IsSet bits.items v ↔ IsInevitable arcs.now (EventAt events.now) v) }
{
    let sources = sources(alloc, events.len(), arcs)?;
    let left = counts(alloc, events.len(), arcs)?;
    let free = free_points(alloc, events)?;
    let pending = starts(alloc, events)?;
    let bits = unset_bits(alloc, events.len())?;
    let mut search = Search {
        bits,
        left,
        pending,
    };
    search.visit_all(arcs, events, &free, &sources)?;
    Ok(search.into_bits())
}

/// A list without elements for each of `points` points.
fn empty_lists(alloc: Global, points: usize) -> Result<Vec<Vec<u32>>, NoMemory>
    ensures { IfOk result (λ lists. map (λ list. list.items) lists.items ≡ replicate points []) }
{
    let mut lists = Vec::new(alloc);
    for _ in 0..points {
        lists.push(Vec::new(alloc))?;
    }
    Ok(lists)
}

/// For each of `points` points where the arcs to it begin.
fn sources(alloc: Global, points: usize, arcs: &[(u32, u32)]) -> Result<Vec<Vec<u32>>, NoMemory>
    requires { ArcsWithin arcs.now points }
    ensures { IfOk result (λ lists. AreSources points arcs.now (map (λ list. list.items) lists.items)) }
{
    let mut lists = empty_lists(alloc, points)?;
    for (from, to) in arcs {
        lists[*to as usize].push(*from)?;
    }
    Ok(lists)
}

/// One bit for each of `points` points, none of them set.
fn unset_bits(alloc: Global, points: usize) -> Result<Vec<bool>, NoMemory>
    ensures { IfOk result (λ bits. bits.items ≡ replicate points false) }
{
    Ok(vec![in alloc; false; points]?)
}

/// A count of 0 for each of `points` points.
fn zeros(alloc: Global, points: usize) -> Result<Vec<usize>, NoMemory>
    ensures { IfOk result (λ counts. counts.items ≡ replicate points 0) }
{
    Ok(vec![in alloc; 0; points]?)
}

/// For each of `points` points how many arcs leave it.
fn counts(alloc: Global, points: usize, arcs: &[(u32, u32)]) -> Result<Vec<usize>, NoMemory>
    requires within { ArcsWithin arcs.now points }
    requires few { length arcs.now < 2 ^ 32 }
    ensures { IfOk result (λ counts. AreCounts points arcs.now counts.items) }
{
    let mut counts = zeros(alloc, points)?;
    for (from, _) in arcs {
        counts[*from as usize] += 1;
    }
    Ok(counts)
}

/// For each point whether it passes and isn't point 0.
fn free_points(alloc: Global, events: &[Event]) -> Result<Vec<bool>, NoMemory>
    ensures { IfOk result (λ bits. AreFree events.now (length events.now) bits.items) }
{
    let mut bits = Vec::new(alloc);
    for (point, event) in events.iter().enumerate() {
        bits.push(is_free(point, *event))?;
    }
    Ok(bits)
}

fn is_free(point: usize, event: Event) -> bool
    ensures { IsTrue result ↔ IsFree point event }
{
    point != 0 && event == Event::Passes
}

/// The occurrences but for point 0.
fn starts(alloc: Global, events: &[Event]) -> Result<Vec<u32>, NoMemory>
    requires { length events.now < 2 ^ 32 }
    ensures { IfOk result (λ points. AreStarts events.now (length events.now) points.items) }
{
    let mut points = Vec::new(alloc);
    for (point, event) in events.iter().enumerate() {
        if is_start(point, *event) {
            points.push(point as u32)?;
        }
    }
    Ok(points)
}

fn is_start(point: usize, event: Event) -> bool
    ensures { IsTrue result ↔ IsStart point event }
{
    point != 0 && event == Event::Occurs
}

/// Which points are known to be inevitable, how many arcs lead from each point to others, and which points are still to
/// be visited.
#[derive(Drop)]
struct Search {
    bits: Vec<bool>,
    left: Vec<usize>,
    pending: Vec<u32>,
}

impl Search {
    ghost use Rattle.std.specs.Prelude.{◌≤◌, OnOk, ◌∷◌, All, List};
    ghost use Rattle.local_sets.specs.Counting.{times, left_at, IsCounting, IsCountingWith, CountsDown, work};

    fn into_bits(self) -> Vec<bool>
        ensures { result ≡ self.bits }
    {
        let Search {
            bits,
            left: _,
            pending: _,
        } = self;
        bits
    }

    /// Counts one arc from the point down; the point is to be visited once none is left.
    fn count_down(&mut self, point: u32, free: &[bool]) -> Result<(), NoMemory>
        requires point { point < length self.old.left.items }
        requires left { 0 < left_at self.old point }
        requires free { length free.now ≡ length self.old.left.items }
        ensures { OnOk result (CountsDown free.now (point ∷ []) self.old self.new) }
    {
        self.left[point as usize] -= 1;
        if self.left[point as usize] == 0 && free[point as usize] {
            self.pending.push(point)?;
        }
        Ok(())
    }

    fn count_all_down(&mut self, points: &[u32], free: &[bool]) -> Result<(), NoMemory>
        requires points { All (λ v. v < length self.old.left.items) points.now }
        requires left { (v : ℕ) → v < length self.old.left.items → times v points.now ≤ left_at self.old v }
        requires free { length free.now ≡ length self.old.left.items }
        ensures { OnOk result (CountsDown free.now points.now self.old self.new) }
    {
        for point in points {
            self.count_down(*point, free)?;
        }
        Ok(())
    }

    /// Notes that the point is inevitable, unless that is known.
    fn visit(
        &mut self,
        point: u32,
        arcs: &[(u32, u32)],
        events: &[Event],
        free: &[bool],
        sources: &[Vec<u32>],
    ) -> Result<(), NoMemory>
        requires within { ArcsWithin arcs.now (length events.now) }
        requires free { AreFree events.now (length events.now) free.now }
        requires sources { AreSources (length events.now) arcs.now (map (λ list. list.items) sources.now) }
        requires point { point < length events.now }
        requires counting { IsCountingWith point arcs.now events.now self.old }
        ensures counting { OnOk result (IsCounting arcs.now events.now self.new) }
        ensures work { OnOk result (work self.new ≤ work self.old) }
    {
        if !self.bits[point as usize] {
            self.bits[point as usize] = true;
            self.count_all_down(&sources[point as usize], free)?;
        }
        Ok(())
    }

    /// Visits the points that are to be visited, until there are none.
    fn visit_all(
        &mut self,
        arcs: &[(u32, u32)],
        events: &[Event],
        free: &[bool],
        sources: &[Vec<u32>],
    ) -> Result<(), NoMemory>
        requires within { ArcsWithin arcs.now (length events.now) }
        requires free { AreFree events.now (length events.now) free.now }
        requires sources { AreSources (length events.now) arcs.now (map (λ list. list.items) sources.now) }
        requires counting { IsCounting arcs.now events.now self.old }
        ensures len { OnOk result (length self.new.bits.items ≡ length events.now) }
        ensures bits { OnOk result ((v : ℕ) → v < length events.now → IsSet self.new.bits.items v ↔ IsInevitable arcs.now (EventAt events.now) v) }
    {
        while let Some(point) = self.pending.pop() {
            self.visit(point, arcs, events, free, sources)?;
        }
        Ok(())
    }
}
