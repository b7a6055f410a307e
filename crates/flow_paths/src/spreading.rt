//! The points that seeds reach along passing arcs.
ghost use Rattle.std.specs.Prelude.{◌≡◌, ◌<◌, ◌^◌, ◌↔◌, ℕ, [], IfOk, length, map, replicate, vec_len};
ghost use Rattle.flow_paths.specs.Paths.{ArcsWithin};
ghost use Rattle.flow_paths.specs.Spreads.{IsSet, SpreadsTo};
ghost use Rattle.flow_paths.specs.Searching.{AreEnds, AreSet};

use mc_num::NoMemory;
use std::alloc::Global;

/// The points that some path of passing arcs reaches from a seed, the seeds among them.
///
/// An arc is the point where it begins and the point where it ends; `passes` says for each arc whether it passes, and
/// `seeds` for each point whether it is a seed. A search that visits each reached point once, in linear time. `NoMemory`
/// where an allocation was refused.
pub fn spread(
    alloc: Global,
    arcs: &[(u32, u32)],
    passes: &[bool],
    seeds: Vec<bool>,
) -> Result<Vec<bool>, NoMemory>
    requires within { ArcsWithin arcs.now (vec_len seeds) }
    requires tests { length passes.now ≡ length arcs.now }
    requires numbered { vec_len seeds < 2 ^ 32 }
    ensures len { IfOk result (λ bits. vec_len bits ≡ vec_len seeds) }
    ensures spread { IfOk result (λ bits. (v : ℕ) → IsSet bits.items v ↔ SpreadsTo arcs.now passes.now seeds.items v) }
{
    let ends = passing_ends(alloc, seeds.len(), arcs, passes)?;
    let pending = set_points(alloc, &seeds)?;
    let mut search = Search {
        bits: seeds,
        pending,
    };
    search.visit_all(arcs, passes, &ends)?;
    Ok(search.into_bits())
}

/// A list without elements for each of `points` points.
fn empty_lists(alloc: Global, points: usize) -> Result<Vec<Vec<u32>>, NoMemory>
    ensures { IfOk result (λ lists. map (λ list. list.items) lists.items ≡ replicate points []) }
{
    let mut lists = Vec::new(alloc);
    for _ in 0..points {
        lists.push(Vec::new(alloc))?;
    }
    Ok(lists)
}

/// For each of `points` points the ends of the passing arcs from it.
fn passing_ends(
    alloc: Global,
    points: usize,
    arcs: &[(u32, u32)],
    passes: &[bool],
) -> Result<Vec<Vec<u32>>, NoMemory>
    requires within { ArcsWithin arcs.now points }
    requires tests { length passes.now ≡ length arcs.now }
    ensures { IfOk result (λ lists. AreEnds arcs.now passes.now points (length arcs.now) (map (λ list. list.items) lists.items)) }
{
    let mut lists = empty_lists(alloc, points)?;
    for (arc, (from, to)) in arcs.iter().enumerate() {
        if passes[arc] {
            lists[*from as usize].push(*to)?;
        }
    }
    Ok(lists)
}

/// The points whose bits are set.
fn set_points(alloc: Global, bits: &[bool]) -> Result<Vec<u32>, NoMemory>
    requires { length bits.now < 2 ^ 32 }
    ensures { IfOk result (λ points. AreSet bits.now (length bits.now) points.items) }
{
    let mut points = Vec::new(alloc);
    for point in 0..bits.len() {
        if bits[point] {
            points.push(point as u32)?;
        }
    }
    Ok(points)
}

/// Which points are known to be reached, and which of them are still to be visited.
#[derive(Drop)]
struct Search {
    bits: Vec<bool>,
    pending: Vec<u32>,
}

impl Search {
    ghost use Rattle.std.specs.Prelude.{◌∷◌, All, List, OnOk};
    ghost use Rattle.flow_paths.specs.Searching.{Reaches, Searching};

    fn into_bits(self) -> Vec<bool>
        ensures { result ≡ self.bits }
    {
        let Search { bits, pending: _ } = self;
        bits
    }

    /// Sets the bit of a point and notes that it is to be visited, if the bit isn't set yet.
    fn reach(&mut self, point: u32) -> Result<(), NoMemory>
        requires { point < length self.old.bits.items }
        ensures { OnOk result (Reaches (point ∷ []) self.old self.new) }
    {
        if !self.bits[point as usize] {
            self.bits[point as usize] = true;
            self.pending.push(point)?;
        }
        Ok(())
    }

    fn reach_all(&mut self, points: &[u32]) -> Result<(), NoMemory>
        requires { All (λ v. v < length self.old.bits.items) points.now }
        ensures { OnOk result (Reaches points.now self.old self.new) }
    {
        for point in points {
            self.reach(*point)?;
        }
        Ok(())
    }

    /// Visits the points that are to be visited, until there are none.
    fn visit_all(
        &mut self,
        arcs: &[(u32, u32)],
        passes: &[bool],
        ends: &[Vec<u32>],
    ) -> Result<(), NoMemory>
        requires within { ArcsWithin arcs.now (length self.old.bits.items) }
        requires ends { AreEnds arcs.now passes.now (length self.old.bits.items) (length arcs.now) (map (λ list. list.items) ends.now) }
        requires begun { AreSet self.old.bits.items (length self.old.bits.items) self.old.pending.items }
        ensures len { OnOk result (length self.new.bits.items ≡ length self.old.bits.items) }
        ensures spread { OnOk result ((v : ℕ) → IsSet self.new.bits.items v ↔ SpreadsTo arcs.now passes.now self.old.bits.items v) }
    {
        while let Some(point) = self.pending.pop() {
            self.reach_all(&ends[point as usize])?;
        }
        Ok(())
    }
}
