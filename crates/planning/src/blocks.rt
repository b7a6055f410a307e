//! The changes of blocks, from those of edges and points by their numbers.
ghost use Rattle.std.specs.Prelude.{◌≡◌, ◌<◌, ◌^◌, ◌↔◌, true, IfOk, Some, Contains, length, slice_get};
ghost use Rattle.point_graph.specs.Numbers.{ArePoints, KeepsRules};
ghost use Rattle.planning.specs.Blocks.{AreBlocks, AreChangesIn, HasRoom, IsBlock, IsNoBlock};

use crate::marks::{bit_at, bits_of};
use crate::moves::Moved;
use changes::{Action, BlockChanges};
use flow_graph::slots_len;
use ir_types::items::Items;
use ir_types::syntax::{Block, Function};
use mc_num::NoMemory;
use point_graph::{BlockStart, Points, block_at};
use std::alloc::Global;

/// The changes of a block that isn't reached: none.
fn no_changes(alloc: Global) -> BlockChanges
    ensures { IsNoBlock result }
{
    BlockChanges {
        first_edge: 0,
        first_slot: 0,
        inside: Items::new(alloc),
        slots: Items::new(alloc),
        actions: Items::new(alloc),
    }
}

/// A copy of these lists.
fn copied_lists(alloc: Global, lists: &[Items<u32>]) -> Result<Items<Items<u32>>, NoMemory>
    ensures { IfOk result (λ copies. copies ≡ lists.now) }
{
    Ok(Items::copied(alloc, lists)?)
}

fn copied_actions(alloc: Global, actions: &[Action]) -> Result<Items<Action>, NoMemory>
    ensures { IfOk result (λ copies. copies ≡ actions.now) }
{
    Ok(Items::from(Vec::from_slice(alloc, actions)?))
}

/// The changes of a block that begins there.
fn changes_from(
    alloc: Global,
    start: BlockStart,
    block: &Block<'_>,
    moved: &Moved,
) -> Result<BlockChanges, NoMemory>
    requires { HasRoom start block.now moved.now }
    ensures { IfOk result (IsBlock start block.now moved.now) }
{
    let first_edge = start.edge as usize;
    let first_slot = first_edge + block.instrs.len() + 1;
    let behind_slots = first_slot + slots_len(&block.term);
    let first_action = start.point as usize + 1;
    let behind_actions = first_action + block.instrs.len();
    Ok(BlockChanges {
        first_edge: start.edge,
        first_slot: first_slot as u32,
        inside: copied_lists(alloc, &moved.edges.as_slice()[first_edge..first_slot])?,
        slots: copied_lists(alloc, &moved.edges.as_slice()[first_slot..behind_slots])?,
        actions: copied_actions(
            alloc,
            &moved.actions.as_slice()[first_action..behind_actions],
        )?,
    })
}

/// Where the points and the edges of a reached block begin.
fn start_at(points: &Points, block: u32) -> BlockStart
    requires { block < length points.now.starts }
    ensures { slice_get points.now.starts block ≡ Some result }
{
    points.starts.as_slice()[block as usize]
}

/// The changes of a block.
fn changes_of(
    alloc: Global,
    function: &Function<'_>,
    points: &Points,
    moved: &Moved,
    number: u32,
    reached: bool,
) -> Result<BlockChanges, NoMemory>
    requires defined { 0 < length function.now.blocks }
    requires rules { KeepsRules function.now }
    requires points { ArePoints function.now points.now }
    requires edges { length moved.now.edges.items ≡ length points.now.edges }
    requires actions { length moved.now.actions.items ≡ length points.now.points }
    requires told { (reached ≡ true) ↔ Contains points.now.blocks number }
    ensures { IfOk result (AreChangesIn function.now points.now moved.now number) }
{
    if reached {
        changes_from(
            alloc,
            start_at(points, number),
            block_at(function, number),
            moved,
        )
    } else {
        Ok(no_changes(alloc))
    }
}

/// The changes of the blocks.
pub fn all_blocks(
    alloc: Global,
    function: &Function<'_>,
    points: &Points,
    moved: &Moved,
) -> Result<Vec<BlockChanges>, NoMemory>
    requires defined { 0 < length function.now.blocks }
    requires few { length function.now.blocks < 2 ^ 32 }
    requires rules { KeepsRules function.now }
    requires points { ArePoints function.now points.now }
    requires edges { length moved.now.edges.items ≡ length points.now.edges }
    requires actions { length moved.now.actions.items ≡ length points.now.points }
    ensures { IfOk result (λ blocks. AreBlocks function.now points.now moved.now (length function.now.blocks) blocks.items) }
{
    let reached = bits_of(alloc, function.blocks.len(), points.blocks.as_slice())?;
    let mut blocks = Vec::new(alloc);
    for number in 0..function.blocks.len() {
        let is_reached = bit_at(&reached, number);
        blocks.push(changes_of(alloc, function, points, moved, number as u32, is_reached)?)?;
    }
    Ok(blocks)
}
