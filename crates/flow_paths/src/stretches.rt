//! The points that some path from point 0 reaches with no write after its last kill.
ghost use Rattle.std.specs.Prelude.{◌≡◌, ◌<◌, ◌^◌, ◌↔◌, ◌⊎◌, ℕ, IfOk, length, replicate, vec_len};
ghost use Rattle.flow_paths.specs.Paths.{ArcsWithin};
ghost use Rattle.flow_paths.specs.Spreads.{IsSet};
ghost use Rattle.flow_paths.specs.Marks.{mark_at, ReachedInvalid};
ghost use Rattle.flow_paths.specs.Stretches.{then_mark, PassesAt, IsKilledBefore};

use crate::marks::Mark;
use crate::spreading::spread;
use mc_num::NoMemory;
use std::alloc::Global;

/// For each point, whether some path from point 0 reaches it with no write after the last kill on the path.
///
/// The last point of a path isn't counted, and a write with no kill on the path counts as one after the last kill. An
/// arc is the point where it begins and the point where it ends; there is a mark for each point and for each arc. It
/// takes linear time. `NoMemory` where an allocation was refused.
pub fn unwritten(
    alloc: Global,
    arcs: &[(u32, u32)],
    at_point: &[Mark],
    at_edge: &[Mark],
) -> Result<Vec<bool>, NoMemory>
    requires start { 0 < length at_point.now }
    requires numbered { length at_point.now < 2 ^ 32 }
    requires within { ArcsWithin arcs.now (length at_point.now) }
    requires marked { length at_edge.now ≡ length arcs.now }
    ensures len { IfOk result (λ bits. vec_len bits ≡ length at_point.now) }
    ensures bits { IfOk result (λ bits. (v : ℕ) → IsSet bits.items v ↔ ReachedInvalid arcs.now (mark_at at_point.now at_edge.now) v) }
{
    let every = equal_bits(alloc, arcs.len(), true)?;
    let start = start_alone(alloc, at_point.len())?;
    let reached = spread(alloc, arcs, &every, start)?;

    let none = equal_bits(alloc, arcs.len(), false)?;
    let start = start_alone(alloc, at_point.len())?;
    let Stretches { passes, seeds } = find_stretches(
        arcs, at_point, at_edge, &reached, none, start,
    );
    spread(alloc, arcs, &passes, seeds)
}

/// Where an invalid stretch of a path may begin, and along which arcs it lasts.
#[derive(Drop)]
struct Stretches {
    passes: Vec<bool>,
    seeds: Vec<bool>,
}

/// The mark of two places in a row.
fn then(first: Mark, second: Mark) -> Mark
    ensures { result ≡ then_mark first second }
{
    match second {
        Mark::Pass => first,
        Mark::Write | Mark::Kill => second,
    }
}

/// One bit for each of `count` places, all of one value.
fn equal_bits(alloc: Global, count: usize, value: bool) -> Result<Vec<bool>, NoMemory>
    ensures { IfOk result (λ bits. bits.items ≡ replicate count value) }
{
    Ok(vec![in alloc; value; count]?)
}

/// The bit of point 0 alone, among those of `count` points.
fn start_alone(alloc: Global, count: usize) -> Result<Vec<bool>, NoMemory>
    requires { 0 < count }
    ensures len { IfOk result (λ bits. vec_len bits ≡ count) }
    ensures bits { IfOk result (λ bits. (v : ℕ) → IsSet bits.items v ↔ (v ≡ 0)) }
{
    let mut bits = vec![in alloc; false; count]?;
    bits[0] = true;
    Ok(bits)
}

/// Sets the bits of the arcs that pass, and of the ends of arcs behind which a reached path is no longer valid.
fn begin_invalid(
    arcs: &[(u32, u32)],
    at_point: &[Mark],
    at_edge: &[Mark],
    reached: &[bool],
    passes: &mut [bool],
    seeds: &mut [bool],
)
    requires within { ArcsWithin arcs.now (length at_point.now) }
    requires marked { length at_edge.now ≡ length arcs.now }
    requires reached { length reached.now ≡ length at_point.now }
    requires passes { length passes.old ≡ length arcs.now }
    requires seeds { length seeds.old ≡ length at_point.now }
    requires none_pass { (e : ℕ) → ¬ IsSet passes.old e }
    ensures passes { (e : ℕ) → IsSet passes.new e ↔ PassesAt (mark_at at_point.now at_edge.now) arcs.now (length arcs.now) e }
    ensures seeds { (v : ℕ) → IsSet seeds.new v
        ↔ (IsSet seeds.old v ⊎ IsKilledBefore (mark_at at_point.now at_edge.now) arcs.now reached.now (length arcs.now) v) }
{
    for (arc, (from, to)) in arcs.iter().enumerate() {
        match then(at_point[*from as usize], at_edge[arc]) {
            Mark::Write => {}
            Mark::Kill => {
                if reached[*from as usize] {
                    seeds[*to as usize] = true;
                }
            }
            Mark::Pass => passes[arc] = true,
        }
    }
}

/// The stretches of invalid paths, from bits of which none passes and point 0 alone begins.
fn find_stretches(
    arcs: &[(u32, u32)],
    at_point: &[Mark],
    at_edge: &[Mark],
    reached: &[bool],
    mut passes: Vec<bool>,
    mut seeds: Vec<bool>,
) -> Stretches
    requires within { ArcsWithin arcs.now (length at_point.now) }
    requires marked { length at_edge.now ≡ length arcs.now }
    requires reached { length reached.now ≡ length at_point.now }
    requires passes { vec_len passes ≡ length arcs.now }
    requires seeds { vec_len seeds ≡ length at_point.now }
    requires none_pass { (e : ℕ) → ¬ IsSet passes.items e }
    ensures passes_len { vec_len result.passes ≡ length arcs.now }
    ensures seeds_len { vec_len result.seeds ≡ length at_point.now }
    ensures passes { (e : ℕ) → IsSet result.passes.items e ↔ PassesAt (mark_at at_point.now at_edge.now) arcs.now (length arcs.now) e }
    ensures seeds { (v : ℕ) → IsSet result.seeds.items v
        ↔ (IsSet seeds.items v ⊎ IsKilledBefore (mark_at at_point.now at_edge.now) arcs.now reached.now (length arcs.now) v) }
{
    begin_invalid(arcs, at_point, at_edge, reached, &mut passes, &mut seeds);
    Stretches { passes, seeds }
}
