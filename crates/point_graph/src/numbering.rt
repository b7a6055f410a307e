//! The numbers of a function's points and edges.
ghost use Rattle.std.specs.Prelude.{◌<◌, IfOk, length};
ghost use Rattle.ir_types.specs.Limits.{IsWithinLimits};
ghost use Rattle.point_graph.specs.Numbers.{ArePoints, KeepsRules};

use crate::graph::Points;
use crate::lists::{list_edges, list_points};
use crate::starts::{block_starts, reached_blocks};
use flow_graph::reachable;
use ir_types::items::Items;
use ir_types::syntax::Function;
use mc_num::NoMemory;
use std::alloc::Global;

/// The points and the edges of a defined function within the limits. It takes linear time. `NoMemory` where an
/// allocation was refused.
pub fn points(alloc: Global, function: &Function<'_>) -> Result<Points, NoMemory>
    requires defined { 0 < length function.now.blocks }
    requires rules { KeepsRules function.now }
    requires limits { IsWithinLimits function.now }
    ensures { IfOk result (ArePoints function.now) }
{
    let reached = reachable(alloc, function)?;
    let starts = block_starts(alloc, function, reached.as_slice())?;
    let blocks = reached_blocks(alloc, reached.as_slice())?;
    let points = list_points(alloc, function, blocks.as_slice())?;
    let edges = list_edges(alloc, function, blocks.as_slice(), starts.as_slice())?;
    Ok(Points {
        blocks: Items::from(blocks),
        points: Items::from(points),
        edges: Items::from(edges),
        starts: Items::from(starts),
    })
}
