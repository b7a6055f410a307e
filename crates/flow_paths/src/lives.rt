//! The points from which some path meets a goal with no write before it.
ghost use Rattle.std.specs.Prelude.{◌≡◌, ◌<◌, ◌^◌, ◌↔◌, ℕ, IfOk, IsTrue, length, vec_len};
ghost use Rattle.flow_paths.specs.Paths.{flipped_arcs, ArcsWithin};
ghost use Rattle.flow_paths.specs.Spreads.{IsSet};
ghost use Rattle.flow_paths.specs.Marks.{mark_at, MeetsUnwritten};
ghost use Rattle.flow_paths.specs.Stretches.{AreUnwritten};

use crate::marks::Mark;
use crate::spreading::spread;
use mc_num::NoMemory;
use std::alloc::Global;

/// For each point, whether some path from it meets a goal with no write before it on the path; a goal meets itself.
///
/// An arc is the point where it begins and the point where it ends; there is a mark for each point and for each arc,
/// and `goals` says for each point whether it is a goal. It takes linear time. `NoMemory` where an allocation was
/// refused.
pub fn meets_unwritten(
    alloc: Global,
    arcs: &[(u32, u32)],
    at_point: &[Mark],
    at_edge: &[Mark],
    goals: Vec<bool>,
) -> Result<Vec<bool>, NoMemory>
    requires numbered { length at_point.now < 2 ^ 32 }
    requires within { ArcsWithin arcs.now (length at_point.now) }
    requires marked { length at_edge.now ≡ length arcs.now }
    requires goals { vec_len goals ≡ length at_point.now }
    ensures len { IfOk result (λ bits. vec_len bits ≡ length at_point.now) }
    ensures bits { IfOk result (λ bits. (v : ℕ) → IsSet bits.items v ↔ MeetsUnwritten arcs.now (mark_at at_point.now at_edge.now) goals.items v) }
{
    let backward = flip(alloc, arcs)?;
    let passes = unwritten_arcs(alloc, arcs, at_point, at_edge)?;
    spread(alloc, &backward, &passes, goals)
}

/// The arcs against their direction.
fn flip(alloc: Global, arcs: &[(u32, u32)]) -> Result<Vec<(u32, u32)>, NoMemory>
    ensures { IfOk result (λ flipped. flipped.items ≡ flipped_arcs arcs.now) }
{
    Ok(arcs.iter().map(|(from, to)| (*to, *from)).collect(alloc)?)
}

fn is_unwritten(mark: Mark) -> bool
    ensures { IsTrue result ↔ ¬ (mark ≡ Mark.Write) }
{
    match mark {
        Mark::Write => false,
        Mark::Kill | Mark::Pass => true,
    }
}

/// For each arc, whether neither it nor the point that it leaves writes.
fn unwritten_arcs(
    alloc: Global,
    arcs: &[(u32, u32)],
    at_point: &[Mark],
    at_edge: &[Mark],
) -> Result<Vec<bool>, NoMemory>
    requires within { ArcsWithin arcs.now (length at_point.now) }
    requires marked { length at_edge.now ≡ length arcs.now }
    ensures { IfOk result (λ bits. AreUnwritten arcs.now at_point.now at_edge.now (length arcs.now) bits.items) }
{
    let mut passes = Vec::new(alloc);
    for (arc, (from, _)) in arcs.iter().enumerate() {
        let passing = is_unwritten(at_point[*from as usize]) && is_unwritten(at_edge[arc]);
        passes.push(passing)?;
    }
    Ok(passes)
}
