//! What the arguments of calls stand for, or what is wrong with them.
ghost use Rattle.std.specs.Prelude.{◌≡◌, length, map, IfOk};
ghost use Rattle.ir_types.specs.Uses.{argument_problem, arguments_problem, escape_problem};
ghost use Rattle.ir_types.specs.ModuleOf.{argument_of};
ghost use Rattle.ir_uses.specs.Answers.{IsAnswer};
ghost use Rattle.ir_uses.specs.Calls.{call_problem, call_of};

use crate::error::{CheckError, broken, refuse_if};
use crate::meanings::is_undefined;
use crate::types::is_same_width;
use crate::uses::Context;
use ir_types::items::Items;
use ir_types::name::Spelling;
use ir_types::rules::{Here, Rule};
use ir_types::span::At;
use ir_types::syntax::{Kind, Operand};
use ir_types::tree::{RawArg, RawParam, RawValue, Ty};
use mc_num::Width;
use std::alloc::Global;

/// What is wrong with an argument that is written with `ptr`, which always is.
fn escape<'m, 'a>(
    context: &Context<'m, 'a>,
    here: Here,
    value: &At<RawValue<'a>>,
) -> Result<Operand, CheckError>
    ensures problem { IsAnswer result (escape_problem context.now here value.now.span value.now.item) }
    ensures none { IfOk result (λ _. ⊥) }
{
    if let RawValue::Local(name) = &value.item {
        let undefined = is_undefined(here, context.local(name));
        refuse_if(undefined, Rule::Undefined, value.span)?;
    }
    Err(broken(Rule::Escapes, value.span))
}

/// What an argument stands for where one of this width is due, or what is wrong with it.
fn argument<'m, 'a>(
    context: &Context<'m, 'a>,
    here: Here,
    width: Width,
    argument: &RawArg<'a>,
) -> Result<Operand, CheckError>
    ensures problem { IsAnswer result (argument_problem context.now here width argument.now) }
    ensures operand { IfOk result (λ operand. operand ≡ argument_of context.now argument.now) }
{
    match argument.ty {
        Ty::Int(written) => {
            let differs = !is_same_width(written, width);
            context.operand(here, written, differs, &argument.value)
        }
        Ty::Void | Ty::Ptr => escape(context, here, &argument.value),
    }
}

/// What arguments stand for where these parameters are due, or what is wrong with them.
fn arguments<'m, 'a>(
    alloc: Global,
    context: &Context<'m, 'a>,
    here: Here,
    params: &[RawParam<'a>],
    arguments: &[RawArg<'a>],
) -> Result<Items<Operand>, CheckError>
    requires { length params.now ≡ length arguments.now }
    ensures problem { IsAnswer result (arguments_problem context.now here params.now arguments.now) }
    ensures operands { IfOk result (λ operands. operands ≡ map (argument_of context.now) arguments.now) }
{
    let mut operands = Vec::new(alloc);
    for index in 0..arguments.len() {
        let param = &params[index];
        let each = &arguments[index];
        operands.push(argument(context, here, param.width, each)?)?;
    }
    Ok(Items::from(operands))
}

/// What a call does, or what is wrong with it.
pub fn call<'m, 'a>(
    alloc: Global,
    context: &Context<'m, 'a>,
    here: Here,
    ty: Ty,
    named: bool,
    name: &At<Spelling<'a>>,
    written: &[RawArg<'a>],
) -> Result<Kind, CheckError>
    ensures problem { IsAnswer result (call_problem context.now here ty named name.now written.now) }
    ensures kind { IfOk result (λ kind. kind ≡ call_of context.now name.now.item written.now) }
{
    let callee = context.callee(ty, named, written.len(), name)?;
    let operands = arguments(alloc, context, here, callee.params, written)?;
    Ok(Kind::Call(callee.number, operands))
}
