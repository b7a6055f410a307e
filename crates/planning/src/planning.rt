//! From placements to the changes of a function.
ghost use Rattle.std.specs.Prelude.{◌≡◌, ◌<◌, IfOk, length};
ghost use Rattle.ir_types.specs.Limits.{IsWithinLimits};
ghost use Rattle.point_graph.specs.Numbers.{ArePoints};
ghost use Rattle.expressions.specs.Tables.{IsTable};
ghost use Rattle.planning.specs.PlanOf.{ArePlacementsOf, AreChangesOf};

use crate::blocks::all_blocks;
use crate::moves::{Moved, all_moved};
use changes::Changes;
use expressions::Table;
use fresh_prefix::fresh_prefix;
use ir_types::duplicate::Duplicate;
use ir_types::items::Items;
use ir_types::syntax::Function;
use mc_num::NoMemory;
use placement::Placement;
use point_graph::Points;
use std::alloc::Global;

/// What placements change in a defined function, one placement for each expression of its table. `NoMemory` where an
/// allocation was refused.
pub fn changes(
    alloc: Global,
    function: &Function<'_>,
    points: &Points,
    table: &Table<'_, '_>,
    placements: &[Placement],
) -> Result<Changes, NoMemory>
    requires defined { 0 < length function.now.blocks }
    requires limits { IsWithinLimits function.now }
    requires points { ArePoints function.now points.now }
    requires table { IsTable function.now points.now table.now }
    requires placements { ArePlacementsOf function.now points.now table.now placements.now }
    ensures { IfOk result (AreChangesOf function.now points.now table.now placements.now) }
{
    let prefix = fresh_prefix(alloc, function)?;
    let moved = all_moved(alloc, function, points, table, placements)?;
    let entry = copied_list(alloc, &moved.edges.as_slice()[0])?;
    let changed = all_blocks(alloc, function, points, &moved)?;
    let Moved {
        temps,
        edges: _,
        actions: _,
    } = moved;
    Ok(Changes {
        prefix,
        temps: Items::from(temps),
        entry,
        blocks: Items::from(changed),
    })
}

fn copied_list(alloc: Global, list: &Items<u32>) -> Result<Items<u32>, NoMemory>
    ensures { IfOk result (λ copy. copy ≡ list.now) }
{
    Ok(list.duplicate(alloc)?)
}
