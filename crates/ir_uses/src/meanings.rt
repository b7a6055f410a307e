//! What a name can mean where a value, a variable or a block is due.
ghost use Rattle.std.specs.Prelude.{◌≡◌};
ghost use Rattle.ir_types.specs.Uses.{is_undefined, is_across, is_other_value, is_other_variable, is_no_block, is_entry};
ghost use Rattle.ir_types.specs.ModuleOf.{operand_meaning, variable_meaning, block_meaning, function_meaning};

use crate::types::{is_same_type, is_same_width};
use ir_types::rules::{Here, Meaning};
use ir_types::syntax::{Operand, Variable};
use ir_types::tree::Ty;
use mc_num::Width;

/// Nothing, or a register that is used at or before its definition in its own block.
pub fn is_undefined(here: Here, meaning: Option<Meaning>) -> bool
    ensures { result ≡ is_undefined here meaning }
{
    match meaning {
        None => true,
        Some(Meaning::Register(block, instr, _)) => block == here.block && here.instr <= instr,
        Some(_) => false,
    }
}

/// A register of another block.
pub fn is_across(here: Here, meaning: Option<Meaning>) -> bool
    ensures { result ≡ is_across here meaning }
{
    match meaning {
        Some(Meaning::Register(block, _, _)) => block != here.block,
        _ => false,
    }
}

/// No parameter and no register of this width.
pub fn is_other_value(width: Width, meaning: Option<Meaning>) -> bool
    ensures { result ≡ is_other_value width meaning }
{
    match meaning {
        Some(Meaning::Parameter(_, own)) => !is_same_width(own, width),
        Some(Meaning::Register(_, _, ty)) => !is_same_type(ty, Ty::Int(width)),
        _ => true,
    }
}

/// No variable of this width.
pub fn is_other_variable(width: Width, meaning: Option<Meaning>) -> bool
    ensures { result ≡ is_other_variable width meaning }
{
    match meaning {
        Some(Meaning::Variable(_, own)) => !is_same_width(own, width),
        Some(Meaning::Global(_, own)) => !is_same_width(own, width),
        _ => true,
    }
}

/// No block.
pub fn is_no_block(meaning: Option<Meaning>) -> bool
    ensures { result ≡ is_no_block meaning }
{
    !matches!(meaning, Some(Meaning::Block(_)))
}

/// The entry block.
pub fn is_entry(meaning: Option<Meaning>) -> bool
    ensures { result ≡ is_entry meaning }
{
    matches!(meaning, Some(Meaning::Block(0)))
}

/// The operand that a name of a value stands for.
pub fn operand_meaning(meaning: Option<Meaning>) -> Operand
    ensures { result ≡ operand_meaning meaning }
{
    match meaning {
        Some(Meaning::Parameter(index, _)) => Operand::Param(index),
        Some(Meaning::Register(_, index, _)) => Operand::Reg(index),
        _ => Operand::Const(0),
    }
}

/// The variable that a name of a variable stands for.
pub fn variable_meaning(meaning: Option<Meaning>) -> Variable
    ensures { result ≡ variable_meaning meaning }
{
    match meaning {
        Some(Meaning::Variable(index, _)) => Variable::Local(index),
        Some(Meaning::Global(index, _)) => Variable::Global(index),
        _ => Variable::Local(0),
    }
}

/// The number of the block that a label stands for.
pub fn block_meaning(meaning: Option<Meaning>) -> u32
    ensures { result ≡ block_meaning meaning }
{
    match meaning {
        Some(Meaning::Block(index)) => index,
        _ => 0,
    }
}

/// The number of the function that a callee stands for.
pub fn function_meaning(meaning: Option<Meaning>) -> u32
    ensures { result ≡ function_meaning meaning }
{
    match meaning {
        Some(Meaning::Function(index)) => index,
        _ => 0,
    }
}
