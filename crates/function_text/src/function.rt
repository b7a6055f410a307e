//! The new function.
ghost use Rattle.std.specs.Prelude.{◌≡◌, ◌<◌, ◌++◌, Some, IfOk, length, slice_get};
ghost use Rattle.ir_types.specs.WellFormed.{IsFunctionIn};
ghost use Rattle.applied.specs.Applied.{Plan, temporaries};
ghost use Rattle.applied.specs.Built.{applied_function, layout_of, new_block, new_blocks};
ghost use Rattle.changes.specs.Changed.{AreChanges, HasPlan};
ghost use Rattle.function_text.specs.ByChanges.{homes_from};

use crate::layout::{homes, leads, slot_lists};
use crate::splits::push_splits;
use crate::terminators::new_term;
use block_text::new_text;
use changes::Changes;
use expressions::Table;
use ir_types::duplicate::Duplicate;
use ir_types::items::Items;
use ir_types::name::{Made, Name};
use ir_types::syntax::{Block, Function};
use mc_num::{NoMemory, Width, result_width};
use std::alloc::Global;

/// A block with its changes, where the function's blocks stand at these homes. `NoMemory` where an allocation was
/// refused.
fn new_block<'a>(
    alloc: Global,
    function: &Function<'a>,
    table: &Table<'_, '_>,
    changes: &Changes,
    homes: &[u32],
    number: u32,
    block: &Block<'a>,
) -> Result<Block<'a>, NoMemory>
    requires rules { IsFunctionIn table.now.module_of function.now }
    requires plan { HasPlan function.now table.now.exprs changes.now }
    requires homes { homes.now ≡ homes_from changes.now 0 0 function.now.blocks }
    requires there { slice_get function.now.blocks number ≡ Some block.now }
    ensures { (plan : Plan) → AreChanges plan table.now.exprs changes.now → IfOk result (λ new.
        new ≡ new_block plan.naming plan.moves (length function.now.vars) (layout_of plan.moves function.now.blocks) number block.now) }
{
    let text = new_text(alloc, function, table, changes, number)?;
    let lists = slot_lists(changes, number);
    let first = homes[number as usize] + 1;
    let leads = leads(alloc, &block.term, lists, homes, first)?;
    let term = new_term(
        alloc,
        &block.term,
        text.numbers.as_slice(),
        leads.as_slice(),
    )?;
    Ok(Block {
        name: block.name.copied(),
        instrs: text.instrs,
        term,
    })
}

/// The blocks with their changes, each followed by those that split its slots. `NoMemory` where an allocation was
/// refused.
fn new_blocks<'a>(
    alloc: Global,
    function: &Function<'a>,
    table: &Table<'_, '_>,
    changes: &Changes,
    homes: &[u32],
) -> Result<Vec<Block<'a>>, NoMemory>
    requires rules { IsFunctionIn table.now.module_of function.now }
    requires plan { HasPlan function.now table.now.exprs changes.now }
    requires homes { homes.now ≡ homes_from changes.now 0 0 function.now.blocks }
    ensures { (plan : Plan) → AreChanges plan table.now.exprs changes.now → IfOk result (λ blocks.
        blocks.items ≡ new_blocks plan.naming plan.moves (length function.now.vars) (layout_of plan.moves function.now.blocks) 0 function.now.blocks) }
{
    let mut blocks = Vec::new(alloc);
    for (index, block) in function.blocks.as_slice().iter().enumerate() {
        let number = index as u32;
        blocks.push(new_block(alloc, function, table, changes, homes, number, block)?)?;
        push_splits(alloc, &mut blocks, function, table, changes, homes, number)?;
    }
    Ok(blocks)
}

/// The variables of a function and its temporaries. `NoMemory` where an allocation was refused.
fn new_vars<'a>(
    alloc: Global,
    function: &Function<'a>,
    table: &Table<'_, '_>,
    changes: &Changes,
) -> Result<Items<(Width, Name<'a>)>, NoMemory>
    requires { HasPlan function.now table.now.exprs changes.now }
    ensures { (plan : Plan) → AreChanges plan table.now.exprs changes.now → IfOk result (λ vars.
        vars ≡ function.now.vars ++ temporaries plan.naming plan.moves) }
{
    let mut vars = function.vars.duplicate(alloc)?;
    for x in changes.temps.as_slice() {
        let width = result_width(table.expr(*x).op);
        vars.push((width, Name::Made(changes.prefix, Made::Temp { x: *x })))?;
    }
    Ok(vars)
}

/// The function with its changes, a defined function of the table's module. `NoMemory` where an allocation was refused.
pub fn new_function<'a>(
    alloc: Global,
    function: &Function<'a>,
    table: &Table<'_, '_>,
    changes: &Changes,
) -> Result<Function<'a>, NoMemory>
    requires rules { IsFunctionIn table.now.module_of function.now }
    requires plan { HasPlan function.now table.now.exprs changes.now }
    ensures { (plan : Plan) → AreChanges plan table.now.exprs changes.now → IfOk result (λ new. new ≡ applied_function plan function.now) }
{
    let homes = homes(alloc, function, changes)?;
    let blocks = new_blocks(alloc, function, table, changes, homes.as_slice())?;
    let vars = new_vars(alloc, function, table, changes)?;
    let params = function.params.duplicate(alloc)?;
    Ok(Function {
        name: function.name.copied(),
        ret: function.ret,
        params,
        vars,
        blocks: Items::from(blocks),
    })
}
