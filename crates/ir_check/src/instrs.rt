//! What the instructions of a block become, or what is wrong with them.
ghost use Rattle.std.specs.Prelude.{◌≡◌, [], ◌∷◌, ◌++◌, ◌<◌, ◌+◌, ◌^◌, length, is_some, IfOk, OnOk, option_to_list};
ghost use Rattle.ir_types.specs.Rules.{after_instrs, here, instr_problem, instrs_problem, kind_problem};
ghost use Rattle.ir_types.specs.ModuleOf.{gives, instr_of, instrs_from, kind_of, operand_of, var_of, vars_from};
ghost use Rattle.mc_num.specs.declared.op.Width.TheVariants.{I1};
ghost use Rattle.ir_types.specs.declared.syntax.Kind.TheVariants.{Compute};
ghost use Rattle.ir_uses.specs.Answers.{IsAnswer};
ghost use Rattle.ir_check.specs.Parts.{choice_problem, pair_of, pair_problem, result_of};

use crate::reached::Reached;
use ir_types::items::Items;
use ir_types::name::Name;
use ir_types::operands::Operands;
use ir_types::rules::{Here, Rule};
use ir_types::span::At;
use ir_types::syntax::{Instr, Kind, Operand};
use ir_types::tree::{RawInstr, RawKind, RawValue, Ty};
use ir_uses::calls::call;
use ir_uses::error::{CheckError, broken, refuse_if};
use ir_uses::types::{fits_widths, is_same_width};
use ir_uses::uses::Context;
use mc_num::{Op, Width};
use std::alloc::{AllocError, Global};

/// The operation of these operands.
fn compute(alloc: Global, op: Op, operands: &[Operand]) -> Result<Kind, AllocError>
    ensures { IfOk result (λ kind. kind ≡ Compute op operands.now) }
{
    let mut made = Operands::new(alloc);
    for operand in operands {
        made.push(*operand)?;
    }
    Ok(Kind::Compute(op, made))
}

/// What two values of one width stand for, or what is wrong with them.
fn pair<'m, 'a>(
    context: &Context<'m, 'a>,
    here: Here,
    width: Width,
    one: &At<RawValue<'a>>,
    other: &At<RawValue<'a>>,
) -> Result<[Operand; 2], CheckError>
    ensures problem { IsAnswer result (pair_problem context.now here width one.now other.now) }
    ensures operands { IfOk result (λ operands. operands ≡ pair_of context.now width one.now.item other.now.item) }
{
    let one = context.operand(here, width, false, one)?;
    let other = context.operand(here, width, false, other)?;
    Ok([one, other])
}

/// What the values of a select stand for, or what is wrong with them; `second` is the type written for the last one.
fn choice<'m, 'a>(
    context: &Context<'m, 'a>,
    here: Here,
    width: Width,
    test: &At<RawValue<'a>>,
    one: &At<RawValue<'a>>,
    second: &At<Width>,
    other: &At<RawValue<'a>>,
) -> Result<[Operand; 3], CheckError>
    ensures problem { IsAnswer result (choice_problem context.now here width test.now one.now second.now other.now) }
    ensures operands { IfOk result (λ operands. operands ≡ operand_of context.now I1 test.now.item ∷ pair_of context.now width one.now.item other.now.item) }
{
    let test = context.operand(here, Width::I1, false, test)?;
    let one = context.operand(here, width, false, one)?;
    let differs = !is_same_width(second.item, width);
    refuse_if(differs, Rule::BadType, second.span)?;
    let other = context.operand(here, width, false, other)?;
    Ok([test, one, other])
}

/// What an instruction does, or what is wrong with it behind its name; an alloca does nothing.
fn kind<'m, 'a>(
    alloc: Global,
    context: &Context<'m, 'a>,
    reached: &Reached<'a>,
    instr: &RawInstr<'a>,
) -> Result<Option<Kind>, CheckError>
    ensures problem { IsAnswer result (kind_problem context.now reached.now (is_some instr.now.result) instr.now.word instr.now.kind) }
    ensures kind { IfOk result (λ kind. kind ≡ kind_of context.now instr.now.kind) }
{
    let here = reached.here();
    let kind = match &instr.kind {
        RawKind::Alloca(_) => {
            let late = !(here.block == 0 && here.instr == 0);
            refuse_if(late, Rule::LateAlloca, instr.word)?;
            return Ok(None);
        }
        RawKind::Load(width, address) => Kind::Load(context.variable(here, *width, address)?),
        RawKind::Store(width, value, address) => {
            let value = context.operand(here, *width, false, value)?;
            Kind::Store(value, context.variable(here, *width, address)?)
        }
        RawKind::Bin(op, width, one, other) => {
            let operands = pair(context, here, *width, one, other)?;
            compute(alloc, Op::Bin(*op, *width), &operands)?
        }
        RawKind::Icmp(pred, width, one, other) => {
            let operands = pair(context, here, *width, one, other)?;
            compute(alloc, Op::Icmp(*pred, *width), &operands)?
        }
        RawKind::Cast(cast, width, value, to) => {
            let value = context.operand(here, *width, false, value)?;
            let other = !fits_widths(*cast, *width, to.item);
            refuse_if(other, Rule::BadType, to.span)?;
            compute(alloc, Op::Cast(*cast, *width, to.item), &[value])?
        }
        RawKind::Select(test, width, one, second, other) => {
            let operands = choice(context, here, *width, test, one, second, other)?;
            compute(alloc, Op::Select(*width), &operands)?
        }
        RawKind::Call(ty, callee, arguments) => {
            let named = instr.result.is_some();
            call(
                alloc,
                context,
                here,
                *ty,
                named,
                callee,
                arguments.as_slice(),
            )?
        }
        RawKind::Phi(_, _) => return Err(broken(Rule::Phi, instr.word)),
    };
    Ok(Some(kind))
}

/// Whether an instruction gives a result: a store and a call of a `void` function give none.
fn gives(kind: &RawKind<'_>) -> bool
    ensures { result ≡ gives kind.now }
{
    match kind {
        RawKind::Store(_, _, _) => false,
        RawKind::Call(Ty::Int(_), _, _) => true,
        RawKind::Call(_, _, _) => false,
        _ => true,
    }
}

/// The variable that an instruction makes.
fn var<'a>(reached: &Reached<'a>, instr: &RawInstr<'a>) -> Option<(Width, Name<'a>)>
    ensures { result ≡ var_of reached.now instr.now instr.now.kind }
{
    match &instr.kind {
        RawKind::Alloca(width) => Some((*width, reached.before().name_of(&instr.result))),
        _ => None,
    }
}

/// The name of what an instruction gives, if it gives anything.
fn result_name<'a>(reached: &Reached<'a>, instr: &RawInstr<'a>) -> Option<Name<'a>>
    ensures { result ≡ result_of reached.now instr.now }
{
    if gives(&instr.kind) {
        Some(reached.before().name_of(&instr.result))
    } else {
        None
    }
}

/// The instruction that another makes, or what is wrong with it.
fn instr<'m, 'a>(
    alloc: Global,
    context: &Context<'m, 'a>,
    reached: &Reached<'a>,
    instr: &RawInstr<'a>,
) -> Result<Option<Instr<'a>>, CheckError>
    ensures problem { IsAnswer result (instr_problem context.now reached.now instr.now) }
    ensures instr { IfOk result (λ made. made ≡ instr_of context.now reached.now instr.now) }
{
    reached.before().check_name(&instr.result)?;
    match kind(alloc, context, reached, instr)? {
        Some(kind) => {
            let result = result_name(reached, instr);
            Ok(Some(Instr { result, kind }))
        }
        None => Ok(None),
    }
}

/// Puts an item at the end, where there is one.
fn push_some<T: Drop>(items: &mut Vec<T>, item: Option<T>) -> Result<(), AllocError>
    ensures { OnOk result (items.new.items ≡ items.old.items ++ option_to_list item) }
{
    if let Some(item) = item {
        items.push(item)?;
    }
    Ok(())
}

/// What instructions become, or what is wrong with them; they are passed on the way, and the variables that they make
/// go behind `variables`.
pub fn instrs<'m, 'a>(
    alloc: Global,
    context: &Context<'m, 'a>,
    reached: &mut Reached<'a>,
    variables: &mut Vec<(Width, Name<'a>)>,
    instrs: &[RawInstr<'a>],
) -> Result<Items<Instr<'a>>, CheckError>
    requires few { reached.old.variables + reached.old.instrs + length instrs.now < 2 ^ 32 }
    ensures problem { IsAnswer result (instrs_problem context.now reached.old instrs.now) }
    ensures after { OnOk result (reached.new ≡ after_instrs reached.old instrs.now) }
    ensures variables { OnOk result (variables.new.items ≡ variables.old.items ++ vars_from reached.old instrs.now) }
    ensures instrs { IfOk result (λ made. made ≡ instrs_from context.now reached.old instrs.now) }
{
    let mut made = Vec::new(alloc);
    for each in instrs {
        push_some(&mut made, instr(alloc, context, reached, each)?)?;
        push_some(variables, var(reached, each))?;
        reached.pass(each)?;
    }
    Ok(Items::from(made))
}
