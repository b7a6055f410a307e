//! What placements cost by the counts of a profile.
ghost use Rattle.std.specs.Prelude.{◌<◌, ◌^◌, All, length};
ghost use Rattle.ir_types.specs.Limits.{IsWithinLimits};
ghost use Rattle.ir_types.specs.WellFormed.{IsFunctionIn};
ghost use Rattle.profile.specs.Counts.{AreCounts, IsAccepted, total};

use crate::ordering::{are_ascending, are_below};
use ir_reader::read;
use ir_types::items::Items;
use ir_types::module::Module;
use ir_types::syntax::Function;
use mc_num::NoMemory;
use placement::{Placement, cost};
use point_graph::points;
use profile::{FnCounts, read_profile};
use std::alloc::Global;
use std::test::Fail;

fn cost_in(
    alloc: Global,
    module: &Module<'_>,
    function: &Function<'_>,
    counts: &FnCounts,
    placement: &Placement,
) -> Result<Option<u128>, NoMemory>
    requires defined { 0 < length function.now.blocks }
    requires rules { IsFunctionIn «module».now function.now }
    requires limits { IsWithinLimits function.now }
    requires counts { AreCounts function.now counts.now }
    requires total { total counts.now < 2 ^ 64 }
{
    let points = points(alloc, function)?;
    let inserted = placement.inserted.as_slice();
    let kept = placement.kept.as_slice();
    if !are_below(inserted, points.edges.len()) || !are_ascending(inserted) {
        return Ok(None);
    }
    if !are_below(kept, points.points.len()) || !are_ascending(kept) {
        return Ok(None);
    }
    Ok(Some(cost(function, &points, counts, placement)))
}

fn cost_in_first(
    alloc: Global,
    module: &Module<'_>,
    counts: &[FnCounts],
    placement: &Placement,
) -> Result<Option<u128>, NoMemory>
    requires limits { All IsWithinLimits «module».now.functions }
    requires accepted { IsAccepted «module».now counts.now }
{
    for function in module.functions() {
        if function.blocks.len() != 0 {
            return match counts.first() {
                Some(own) => cost_in(alloc, module, function, own, placement),
                None => Ok(None),
            };
        }
    }
    Ok(None)
}

/// What a placement costs in the first function that has blocks, by a text and its profile; `None` where there is no
/// such function, edge or point, or the numbers don't ascend.
pub fn cost_at(
    alloc: Global,
    source: &[u8],
    profile: &[u8],
    inserted: &[u32],
    kept: &[u32],
) -> Result<Option<u128>, Fail> {
    if source.len() > 1 << 26 || profile.len() > 1 << 26 {
        return Ok(None);
    }
    let module = read(alloc, source)?;
    let profile = read_profile(alloc, profile, &module)?;
    let placement = Placement {
        inserted: Items::copied(alloc, inserted)?,
        kept: Items::copied(alloc, kept)?,
    };
    Ok(cost_in_first(alloc, &module, profile.functions.as_slice(), &placement)?)
}
