//! Copies of instructions with new numbers of registers.
ghost use Rattle.std.specs.Prelude.{◌≡◌, ◌∷◌, ◌++◌, ◌<◌, [], All, IfOk, OnOk, length, map, slice_index};
ghost use Rattle.applied.specs.Renamed.{renamed, renamed_kind};
ghost use Rattle.changes.specs.Changed.{acted, added};
ghost use Rattle.block_text.specs.ByChanges.{AreBelow, IsBelow, TempThere};

use crate::source::Source;
use changes::Action;
use ir_types::items::Items;
use ir_types::operands::Operands;
use ir_types::syntax::{Instr, Kind, Operand, Variable};
use mc_num::NoMemory;
use std::alloc::Global;

/// The operand with the new numbers of registers.
fn renamed(operand: Operand, numbers: &[u32]) -> Operand
    requires { IsBelow (length numbers.now) operand }
    ensures { result ≡ renamed (slice_index numbers.now) operand }
{
    match operand {
        Operand::Const(value) => Operand::Const(value),
        Operand::Param(param) => Operand::Param(param),
        Operand::Reg(register) => Operand::Reg(numbers[register as usize]),
    }
}

/// The operands with the new numbers of registers.
fn renamed_operands(
    alloc: Global,
    operands: &[Operand],
    numbers: &[u32],
) -> Result<Operands, NoMemory>
    requires { All (IsBelow (length numbers.now)) operands.now }
    ensures { IfOk result (λ list. list ≡ map (renamed (slice_index numbers.now)) operands.now) }
{
    let mut list = Operands::new(alloc);
    for operand in operands {
        list.push(renamed(*operand, numbers))?;
    }
    Ok(list)
}

/// The arguments with the new numbers of registers.
fn renamed_arguments(
    alloc: Global,
    arguments: &[Operand],
    numbers: &[u32],
) -> Result<Items<Operand>, NoMemory>
    requires { All (IsBelow (length numbers.now)) arguments.now }
    ensures { IfOk result (λ list. list ≡ map (renamed (slice_index numbers.now)) arguments.now) }
{
    let mut list = Items::new(alloc);
    for argument in arguments {
        list.push(renamed(*argument, numbers))?;
    }
    Ok(list)
}

/// What an instruction does, with the new numbers of registers.
fn renamed_kind(alloc: Global, kind: &Kind, numbers: &[u32]) -> Result<Kind, NoMemory>
    requires { AreBelow (length numbers.now) kind.now }
    ensures { IfOk result (λ new. new ≡ renamed_kind (slice_index numbers.now) kind.now) }
{
    match kind {
        Kind::Load(variable) => Ok(Kind::Load(*variable)),
        Kind::Store(value, variable) => Ok(Kind::Store(renamed(*value, numbers), *variable)),
        Kind::Compute(op, operands) => {
            let operands = renamed_operands(alloc, operands.as_slice(), numbers)?;
            Ok(Kind::Compute(*op, operands))
        }
        Kind::Call(callee, arguments) => {
            let arguments = renamed_arguments(alloc, arguments.as_slice(), numbers)?;
            Ok(Kind::Call(*callee, arguments))
        }
    }
}

/// The instruction after the action, with the new numbers of registers.
pub fn acted<'a>(
    source: &Source<'_, '_, '_>,
    action: Action,
    instr: &Instr<'a>,
    numbers: &[u32],
) -> Result<Instr<'a>, NoMemory>
    requires there { TempThere source.now action }
    requires below { AreBelow (length numbers.now) instr.now.kind }
    ensures { IfOk result (λ new. new ≡ acted action source.now.vars (slice_index numbers.now) instr.now) }
{
    let kind = match action {
        Action::Loads(temp) => Kind::Load(Variable::Local(source.variable(temp))),
        Action::Stays | Action::Stores(_) => renamed_kind(source.alloc, &instr.kind, numbers)?,
    };
    let result = match &instr.result {
        Some(name) => Some(name.copied()),
        None => None,
    };
    Ok(Instr { result, kind })
}

/// Adds the store that the action adds behind the instruction of this number.
pub fn push_store(
    source: &Source<'_, '_, '_>,
    instrs: &mut Vec<Instr<'_>>,
    action: Action,
    register: u32,
) -> Result<(), NoMemory>
    requires { TempThere source.now action }
    ensures { OnOk result (instrs.new.items ≡ instrs.old.items ++ added action source.now.vars register) }
{
    if let Action::Stores(temp) = action {
        instrs.push(Instr {
            result: None,
            kind: Kind::Store(
                Operand::Reg(register),
                Variable::Local(source.variable(temp)),
            ),
        })?;
    }
    Ok(())
}
