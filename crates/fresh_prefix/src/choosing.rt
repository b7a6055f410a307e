//! The names of a function, and the prefix that is free.
ghost use Rattle.std.specs.Prelude.{◌∷◌, [], IfOk, OnOk, map};
ghost use Rattle.std.specs.Option.{option_to_list};
ghost use Rattle.ir_types.specs.WellFormed.{block_names, result_names};
ghost use Rattle.applied.specs.Applied.{IsFreshPrefix};
ghost use Rattle.fresh_prefix.specs.Prefixes.{Extends};

use crate::least::least_missing;
use crate::reading::prefix_of;
use ir_types::name::Name;
use ir_types::syntax::{Block, Function, Instr};
use mc_num::{NoMemory, Width};
use std::alloc::Global;

/// Adds the number of the prefix that the name begins with.
fn push_prefix(numbers: &mut Vec<u32>, name: &Name<'_>) -> Result<(), NoMemory>
    ensures { OnOk result (Extends (name.now ∷ []) numbers.old.items numbers.new.items) }
{
    if let Some(number) = prefix_of(name) {
        numbers.push(number)?;
    }
    Ok(())
}

/// Adds those of parameters or of variables.
fn push_places(numbers: &mut Vec<u32>, places: &[(Width, Name<'_>)]) -> Result<(), NoMemory>
    ensures { OnOk result (Extends (map (λ place. place.1) places.now) numbers.old.items numbers.new.items) }
{
    for place in places {
        push_prefix(numbers, &place.1)?;
    }
    Ok(())
}

/// Adds that of an instruction's result.
fn push_result(numbers: &mut Vec<u32>, instr: &Instr<'_>) -> Result<(), NoMemory>
    ensures { OnOk result (Extends (option_to_list instr.now.result) numbers.old.items numbers.new.items) }
{
    if let Some(name) = &instr.result {
        push_prefix(numbers, name)?;
    }
    Ok(())
}

/// Adds those of a block and of its results.
fn push_block(numbers: &mut Vec<u32>, block: &Block<'_>) -> Result<(), NoMemory>
    ensures { OnOk result (Extends (block.now.name ∷ result_names block.now) numbers.old.items numbers.new.items) }
{
    push_prefix(numbers, &block.name)?;
    for instr in block.instrs.as_slice() {
        push_result(numbers, instr)?;
    }
    Ok(())
}

fn push_blocks(numbers: &mut Vec<u32>, blocks: &[Block<'_>]) -> Result<(), NoMemory>
    ensures { OnOk result (Extends (block_names blocks.now) numbers.old.items numbers.new.items) }
{
    for block in blocks {
        push_block(numbers, block)?;
    }
    Ok(())
}

/// The first prefix of made names that no name of the function begins with. It takes linear time. `NoMemory` where an
/// allocation was refused.
pub fn fresh_prefix(alloc: Global, function: &Function<'_>) -> Result<u32, NoMemory>
    ensures { IfOk result (IsFreshPrefix function.now) }
{
    let mut numbers = Vec::new(alloc);
    push_places(&mut numbers, function.params.as_slice())?;
    push_places(&mut numbers, function.vars.as_slice())?;
    push_blocks(&mut numbers, function.blocks.as_slice())?;
    let least = least_missing(alloc, &numbers)?;
    match u32::try_from(least) {
        Ok(prefix) => Ok(prefix),
        Err(_) => Err(NoMemory),
    }
}
