//! The expressions of operations.
ghost use Rattle.std.specs.Prelude.{◌≡◌, ◌<◌, ◌+◌, ◌^◌, IfOk, length};
ghost use Rattle.std.specs.Option.{option_map};
ghost use Rattle.expressions.specs.Expressions.{each_some, expr_by};
ghost use Rattle.expressions.specs.Tracking.{arg_now, loaded_now};

use crate::args::Args;
use crate::changes::Changes;
use crate::syntax::{Arg, Expr};
use ir_types::syntax::{Instr, Kind, Operand};
use mc_num::{NoMemory, Op};
use std::alloc::Global;

/// The variable that an instruction at a point loaded, if nothing may have changed it since.
fn loaded(changes: &Changes, kind: &Kind, point: usize) -> Option<Arg>
    ensures { result ≡ loaded_now changes.now kind.now point }
{
    match kind {
        Kind::Load(variable) => if changes.is_current(*variable, point) {
            Some(Arg::Var(*variable))
        } else {
            None
        },
        Kind::Store(..) | Kind::Compute(..) | Kind::Call(..) => None,
    }
}

/// What an operand stands for behind these instructions of its block, the first of which is at the point `first`.
fn argument(changes: &Changes, before: &[Instr<'_>], first: usize, operand: Operand) -> Option<Arg>
    requires { first + length before.now < 2 ^ 64 }
    ensures { result ≡ arg_now changes.now first before.now operand }
{
    match operand {
        Operand::Const(value) => Some(Arg::Const(value)),
        Operand::Param(param) => Some(Arg::Param(param)),
        Operand::Reg(register) => match before.get(register as usize) {
            Some(instr) => loaded(changes, &instr.kind, first + register as usize),
            None => None,
        },
    }
}

/// What the operands of an operation stand for, if each stands for something.
fn arguments(
    alloc: Global,
    changes: &Changes,
    before: &[Instr<'_>],
    first: usize,
    operands: &[Operand],
) -> Result<Option<Args>, NoMemory>
    requires { first + length before.now < 2 ^ 64 }
    ensures { IfOk result (λ args. args ≡ each_some (arg_now changes.now first before.now) operands.now) }
{
    let mut args = Args::new(alloc);
    for operand in operands {
        match argument(changes, before, first, *operand) {
            Some(arg) => args.push(arg)?,
            None => return Ok(None),
        }
    }
    Ok(Some(args))
}

fn with_op(op: Op, args: Option<Args>) -> Option<Expr>
    ensures { result ≡ option_map (λ list. record { op = op; args = list }) args }
{
    match args {
        Some(args) => Some(Expr { op, args }),
        None => None,
    }
}

/// The expression of an instruction behind these, the first of which is at the point `first`, if it has one.
pub fn expression(
    alloc: Global,
    changes: &Changes,
    before: &[Instr<'_>],
    first: usize,
    kind: &Kind,
) -> Result<Option<Expr>, NoMemory>
    requires { first + length before.now < 2 ^ 64 }
    ensures { IfOk result (λ e. e ≡ expr_by (arg_now changes.now first before.now) kind.now) }
{
    match kind {
        Kind::Compute(op, operands) => {
            let args = arguments(alloc, changes, before, first, operands.as_slice())?;
            Ok(with_op(*op, args))
        }
        Kind::Load(_) | Kind::Store(..) | Kind::Call(..) => Ok(None),
    }
}
