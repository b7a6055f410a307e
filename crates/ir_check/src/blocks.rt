//! What the blocks of a function become, or what is wrong with them.
ghost use Rattle.std.specs.Prelude.{◌≡◌, ◌++◌, ◌<◌, ◌+◌, ◌^◌, length, IfOk, OnOk};
ghost use Rattle.ir_types.specs.Rules.{after_block, after_blocks, after_instrs, at_block, block_problem, blocks_problem};
ghost use Rattle.ir_types.specs.ModuleOf.{block_of, blocks_from, variables_from, vars_from};
ghost use Rattle.ir_uses.specs.Answers.{IsAnswer};
ghost use Rattle.ir_check.specs.Room.{blocks_size};

use crate::instrs::instrs;
use crate::reached::Reached;
use crate::terms::term;
use ir_types::items::Items;
use ir_types::name::Name;
use ir_types::syntax::Block;
use ir_types::tree::{RawBlock, RawInstr};
use ir_uses::error::CheckError;
use ir_uses::uses::Context;
use mc_num::Width;
use std::alloc::{AllocError, Global};

/// Goes behind instructions.
fn pass_instrs<'a>(reached: &mut Reached<'a>, instrs: &[RawInstr<'a>]) -> Result<(), AllocError>
    requires few { reached.old.variables + reached.old.instrs + length instrs.now < 2 ^ 32 }
    ensures { OnOk result (reached.new ≡ after_instrs reached.old instrs.now) }
{
    for instr in instrs {
        reached.pass(instr)?;
    }
    Ok(())
}

/// Goes behind a block.
fn pass_block<'a>(reached: &mut Reached<'a>, block: &RawBlock<'a>) -> Result<(), AllocError>
    requires few_instrs { reached.old.variables + length block.now.instrs < 2 ^ 32 }
    requires few { reached.old.block + 1 < 2 ^ 32 }
    ensures { OnOk result (reached.new ≡ after_block reached.old block.now) }
{
    reached.enter(block)?;
    pass_instrs(reached, block.instrs.as_slice())?;
    reached.leave();
    Ok(())
}

/// Goes behind blocks.
pub fn pass_blocks<'a>(reached: &mut Reached<'a>, blocks: &[RawBlock<'a>]) -> Result<(), AllocError>
    requires few { reached.old.block + reached.old.variables + blocks_size blocks.now < 2 ^ 32 }
    ensures { OnOk result (reached.new ≡ after_blocks reached.old blocks.now) }
{
    for block in blocks {
        pass_block(reached, block)?;
    }
    Ok(())
}

/// What a block becomes, or what is wrong with it; it is passed on the way, and the variables that it makes go behind
/// `variables`.
fn block<'m, 'a>(
    alloc: Global,
    context: &Context<'m, 'a>,
    reached: &mut Reached<'a>,
    variables: &mut Vec<(Width, Name<'a>)>,
    block: &RawBlock<'a>,
) -> Result<Block<'a>, CheckError>
    requires few_instrs { reached.old.variables + length block.now.instrs < 2 ^ 32 }
    requires few { reached.old.block + 1 < 2 ^ 32 }
    ensures problem { IsAnswer result (block_problem context.now reached.old block.now) }
    ensures after { OnOk result (reached.new ≡ after_block reached.old block.now) }
    ensures variables { OnOk result (variables.new.items ≡ variables.old.items ++ vars_from (at_block reached.old block.now) block.now.instrs) }
    ensures block { IfOk result (λ made. made ≡ block_of context.now reached.old block.now) }
{
    reached.before().check_name(&block.label)?;
    let name = reached.before().name_of(&block.label);
    reached.enter(block)?;
    let instrs = instrs(alloc, context, reached, variables, block.instrs.as_slice())?;
    let term = term(alloc, context, reached.here(), block.term_word, &block.term)?;
    reached.leave();
    Ok(Block { name, instrs, term })
}

/// What blocks become, or what is wrong with them; they are passed on the way, and the variables that they make go
/// behind `variables`.
pub fn blocks<'m, 'a>(
    alloc: Global,
    context: &Context<'m, 'a>,
    reached: &mut Reached<'a>,
    variables: &mut Vec<(Width, Name<'a>)>,
    blocks: &[RawBlock<'a>],
) -> Result<Items<Block<'a>>, CheckError>
    requires few { reached.old.block + reached.old.variables + blocks_size blocks.now < 2 ^ 32 }
    ensures problem { IsAnswer result (blocks_problem context.now reached.old blocks.now) }
    ensures variables { OnOk result (variables.new.items ≡ variables.old.items ++ variables_from reached.old blocks.now) }
    ensures blocks { IfOk result (λ made. made ≡ blocks_from context.now reached.old blocks.now) }
{
    let mut made = Vec::new(alloc);
    for each in blocks {
        made.push(block(alloc, context, reached, variables, each)?)?;
    }
    Ok(Items::from(made))
}
