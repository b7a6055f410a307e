//! The reached blocks, and where the points and the edges of a block begin.
ghost use Rattle.std.specs.Prelude.{◌≡◌, ◌+◌, ◌<◌, ◌^◌, All, IfOk, length};
ghost use Rattle.ir_types.specs.Limits.{IsWithinLimits};
ghost use Rattle.flow_graph.specs.Slots.{slots_of};
ghost use Rattle.flow_graph.specs.Paths.{is_marked};
ghost use Rattle.point_graph.specs.Building.{IsSmall, blocks_before, starts_of};

use crate::graph::BlockStart;
use flow_graph::slot_count;
use ir_types::syntax::{Block, Function};
use mc_num::NoMemory;
use std::alloc::Global;

/// The marked blocks, in text order.
pub fn reached_blocks(alloc: Global, reached: &[bool]) -> Result<Vec<u32>, NoMemory>
    requires { length reached.now < 2 ^ 32 }
    ensures { IfOk result (λ blocks. blocks.items ≡ blocks_before (is_marked reached.now) (length reached.now)) }
{
    let mut blocks = Vec::new(alloc);
    for block in 0..reached.len() {
        if reached[block] {
            blocks.push(block as u32)?;
        }
    }
    Ok(blocks)
}

/// Where the points and the edges of the next reached block begin, behind this block.
fn start_behind(start: BlockStart, block: &Block<'_>) -> BlockStart
    requires points { start.point + length block.now.instrs + 2 < 2 ^ 32 }
    requires edges { start.edge + length block.now.instrs + 1 + length (slots_of block.now.term) < 2 ^ 32 }
    ensures point { result.point ≡ start.point + length block.now.instrs + 2 }
    ensures edge { result.edge ≡ start.edge + length block.now.instrs + 1 + length (slots_of block.now.term) }
{
    let instrs = block.instrs.len() as u32;
    BlockStart {
        point: start.point + instrs + 2,
        edge: start.edge + instrs + 1 + slot_count(&block.term),
    }
}

/// Where the points and the edges of each block begin, if the block is marked.
pub fn block_starts(
    alloc: Global,
    function: &Function<'_>,
    reached: &[bool],
) -> Result<Vec<BlockStart>, NoMemory>
    requires marks { length reached.now ≡ length function.now.blocks }
    requires limits { IsWithinLimits function.now }
    ensures starts { IfOk result (λ starts. starts.items ≡ starts_of function.now (is_marked reached.now) (length function.now.blocks)) }
    ensures small { IfOk result (λ starts. All IsSmall starts.items) }
{
    let mut starts = Vec::new(alloc);
    let mut next = BlockStart { point: 1, edge: 1 };
    for (index, block) in function.blocks.as_slice().iter().enumerate() {
        starts.push(next)?;
        if reached[index] {
            next = start_behind(next, block);
        }
    }
    Ok(starts)
}
