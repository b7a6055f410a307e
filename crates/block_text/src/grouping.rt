//! Groups: the loads of an expression's operands, its operation, and a store to its temporary.
ghost use Rattle.std.specs.Prelude.{◌≡◌, ◌∷◌, ◌++◌, ◌<◌, ◌≤◌, ◌^◌, [], All, IfOk, OnErr, OnOk, length};
ghost use Rattle.point_graph.specs.Graph.{Entry, Inside, Slot};
ghost use Rattle.applied.specs.Applied.{arg_load, arg_operand, arg_operands};
ghost use Rattle.block_text.specs.ByChanges.{edge_groups, expr_group, loads, temp_groups};

use crate::source::Source;
use expressions::{Arg, Expr};
use ir_types::name::{Made, Name};
use ir_types::operands::Operands;
use ir_types::syntax::{Instr, Kind, Operand, Variable};
use mc_num::NoMemory;
use std::alloc::Global;

/// A place in a list, as a number in the text. `NoMemory` for places from 2^32 on, which no function within the limits
/// has.
pub fn text_number(place: usize) -> Result<u32, NoMemory>
    ensures number { IfOk result (λ n. n ≡ place) }
    ensures refused { OnErr result (2 ^ 32 ≤ place) }
{
    u32::try_from(place).map_err(|_| NoMemory)
}

/// An operand of an operation; behind the instructions, its load if it is a variable.
fn push_operand(
    instrs: &mut Vec<Instr<'_>>,
    prefix: u32,
    made: Made,
    arg: Arg,
) -> Result<Operand, NoMemory>
    ensures loads { OnOk result (instrs.new.items ≡ instrs.old.items ++ arg_load (Name.Made prefix made) arg) }
    ensures operand { IfOk result (λ operand. operand ≡ arg_operand (length instrs.old.items) arg) }
{
    match arg {
        Arg::Const(value) => Ok(Operand::Const(value)),
        Arg::Param(param) => Ok(Operand::Param(param)),
        Arg::Var(variable) => {
            let register = text_number(instrs.len())?;
            instrs.push(Instr {
                result: Some(Name::Made(prefix, made)),
                kind: Kind::Load(variable),
            })?;
            Ok(Operand::Reg(register))
        }
    }
}

/// The operands of an operation, the expression of this number on this edge; behind the instructions, the loads of those
/// that are variables.
fn push_operands(
    alloc: Global,
    instrs: &mut Vec<Instr<'_>>,
    prefix: u32,
    x: u32,
    p: u32,
    args: &[Arg],
) -> Result<Operands, NoMemory>
    ensures loads { OnOk result (instrs.new.items ≡ instrs.old.items ++ loads prefix x p 0 args.now) }
    ensures operands { IfOk result (λ operands. operands ≡ arg_operands (length instrs.old.items) args.now) }
{
    let mut operands = Operands::new(alloc);
    for (index, arg) in args.iter().enumerate() {
        let i = text_number(index)?;
        let operand = push_operand(instrs, prefix, Made::Operand { x, p, i }, *arg)?;
        operands.push(operand)?;
    }
    Ok(operands)
}

/// Adds the group of an expression on an edge, which stores to this variable.
fn push_group(
    alloc: Global,
    instrs: &mut Vec<Instr<'_>>,
    prefix: u32,
    p: u32,
    variable: u32,
    x: u32,
    expr: &Expr,
) -> Result<(), NoMemory>
    ensures { OnOk result (instrs.new.items ≡ instrs.old.items ++ expr_group prefix p (length instrs.old.items) variable x expr.now) }
{
    let operands = push_operands(alloc, instrs, prefix, x, p, expr.args.as_slice())?;
    let sum = text_number(instrs.len())?;
    instrs.push(Instr {
        result: Some(Name::Made(prefix, Made::Sum { x, p })),
        kind: Kind::Compute(expr.op, operands),
    })?;
    instrs.push(Instr {
        result: None,
        kind: Kind::Store(Operand::Reg(sum), Variable::Local(variable)),
    })?;
    Ok(())
}

/// Adds the groups of these temporaries on the edge of this number.
fn push_groups(
    source: &Source<'_, '_, '_>,
    instrs: &mut Vec<Instr<'_>>,
    p: u32,
    temps: &[u32],
) -> Result<(), NoMemory>
    requires { All (λ j. j < length source.now.changes.temps) temps.now }
    ensures { OnOk result (instrs.new.items ≡ instrs.old.items ++ temp_groups source.now p (length instrs.old.items) temps.now) }
{
    for temp in temps {
        let x = source.number(*temp);
        let variable = source.variable(*temp);
        push_group(
            source.alloc,
            instrs,
            source.prefix(),
            p,
            variable,
            x,
            source.expr(x),
        )?;
    }
    Ok(())
}

/// Adds the groups of the edge from Start.
pub fn push_entry(source: &Source<'_, '_, '_>, instrs: &mut Vec<Instr<'_>>) -> Result<(), NoMemory>
    ensures { OnOk result (instrs.new.items ≡ instrs.old.items ++ edge_groups source.now (length instrs.old.items) Entry) }
{
    push_groups(source, instrs, 0, source.on_entry())
}

/// Adds the groups of the edge to a place of a block.
pub fn push_inside(
    source: &Source<'_, '_, '_>,
    instrs: &mut Vec<Instr<'_>>,
    block: u32,
    place: usize,
) -> Result<(), NoMemory>
    ensures { OnOk result (instrs.new.items ≡ instrs.old.items ++ edge_groups source.now (length instrs.old.items) (Inside block place)) }
{
    let temps = source.inside(block, place);
    if temps.is_empty() {
        return Ok(());
    }
    push_groups(source, instrs, source.inside_number(block, place), temps)
}

/// Adds the groups of a slot of a block.
pub fn push_slot(
    source: &Source<'_, '_, '_>,
    instrs: &mut Vec<Instr<'_>>,
    block: u32,
    slot: u32,
) -> Result<(), NoMemory>
    ensures { OnOk result (instrs.new.items ≡ instrs.old.items ++ edge_groups source.now (length instrs.old.items) (Slot block slot)) }
{
    let temps = source.on_slot(block, slot);
    if temps.is_empty() {
        return Ok(());
    }
    push_groups(source, instrs, source.slot_number(block, slot), temps)
}
