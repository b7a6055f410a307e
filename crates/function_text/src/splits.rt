//! The blocks that split slots.
ghost use Rattle.std.specs.Prelude.{◌≡◌, ◌<◌, ◌^◌, ◌++◌, true, Some, IfOk, OnOk, length, slice_get, slice_index};
ghost use Rattle.ir_types.specs.WellFormed.{IsFunctionIn};
ghost use Rattle.ir_types.specs.declared.syntax.Block.{Block};
ghost use Rattle.point_graph.specs.Graph.{Slot};
ghost use Rattle.applied.specs.Applied.{Plan, split_block};
ghost use Rattle.applied.specs.Built.{layout_of, split_blocks};
ghost use Rattle.changes.specs.Changed.{AreChanges, HasPlan, inserted_on, number_of_edge};
ghost use Rattle.function_text.specs.ByChanges.{homes_from, is_filled};

use crate::layout::{is_split, slot_lists};
use block_text::groups;
use changes::Changes;
use expressions::Table;
use flow_graph::{slot_count, target};
use ir_types::name::{Made, Name};
use ir_types::syntax::{Block, Function, Terminator};
use mc_num::NoMemory;
use point_graph::block_at;
use std::alloc::Global;

/// The number of the edge of a slot.
fn edge_number(changes: &Changes, block: u32, slot: u32) -> u32
    requires { number_of_edge changes.now (Slot block slot) < 2 ^ 32 }
    ensures { result ≡ number_of_edge changes.now (Slot block slot) }
{
    match changes.blocks.get(block as usize) {
        Some(block) => block.first_slot + slot,
        None => 0,
    }
}

/// The block that splits a slot on which something is inserted, and leads to `home`. `NoMemory` where an allocation was
/// refused.
fn split_block<'a>(
    alloc: Global,
    function: &Function<'a>,
    table: &Table<'_, '_>,
    changes: &Changes,
    block: u32,
    slot: u32,
    home: u32,
) -> Result<Block<'a>, NoMemory>
    requires plan { HasPlan function.now table.now.exprs changes.now }
    requires block { block < length function.now.blocks }
    requires filled { is_filled (inserted_on changes.now (Slot block slot)) ≡ true }
    ensures { (plan : Plan) → AreChanges plan table.now.exprs changes.now → IfOk result (λ new.
        new ≡ split_block plan.naming (length function.now.vars) (Slot block slot) home plan.moves) }
{
    let instrs = groups(alloc, function, table, changes, block, slot)?;
    let p = edge_number(changes, block, slot);
    Ok(Block {
        name: Name::Made(changes.prefix, Made::Split { p }),
        instrs,
        term: Terminator::Jump(home),
    })
}

/// Adds the blocks that split the slots of a block, where the function's blocks stand at these homes. `NoMemory` where
/// an allocation was refused.
pub fn push_splits<'a>(
    alloc: Global,
    blocks: &mut Vec<Block<'a>>,
    function: &Function<'a>,
    table: &Table<'_, '_>,
    changes: &Changes,
    homes: &[u32],
    number: u32,
) -> Result<(), NoMemory>
    requires rules { IsFunctionIn table.now.module_of function.now }
    requires plan { HasPlan function.now table.now.exprs changes.now }
    requires homes { homes.now ≡ homes_from changes.now 0 0 function.now.blocks }
    requires block { number < length function.now.blocks }
    ensures { (plan : Plan) → AreChanges plan table.now.exprs changes.now → (block : Block) → slice_get function.now.blocks number ≡ Some block
        → OnOk result (blocks.new.items ≡ blocks.old.items ++ split_blocks plan.naming plan.moves (length function.now.vars) (layout_of plan.moves function.now.blocks) number block.term) }
{
    let lists = slot_lists(changes, number);
    let term = &block_at(function, number).term;
    for slot in 0..slot_count(term) {
        if is_split(term, lists, slot) {
            let home = homes[target(term, slot) as usize];
            blocks.push(split_block(alloc, function, table, changes, number, slot, home)?)?;
        }
    }
    Ok(())
}
