//! What terminators become, or what is wrong with them.
ghost use Rattle.std.specs.Prelude.{◌≡◌, ◌++◌, [], false, map, IfOk, OnOk, option_to_list};
ghost use Rattle.ir_types.specs.Uses.{case_problem, cases_problem, is_seen};
ghost use Rattle.ir_types.specs.Rules.{term_problem};
ghost use Rattle.ir_types.specs.Literals.{literal_value};
ghost use Rattle.ir_types.specs.ModuleOf.{case_of, term_of};
ghost use Rattle.ir_uses.specs.Answers.{IsAnswer};
ghost use Rattle.ir_check.specs.Parts.{switch_problem, switch_of};

use indexmap::IndexSet;
use ir_types::items::Items;
use ir_types::name::Name;
use ir_types::rules::{Here, Rule};
use ir_types::span::{At, Span};
use ir_types::syntax::Terminator;
use ir_types::tree::{RawCase, RawTerm, RawValue, Ty};
use ir_uses::error::{CheckError, refuse_if};
use ir_uses::literals::{constant_of, literal_value};
use ir_uses::types::{is_same_type, is_same_width};
use ir_uses::uses::Context;
use mc_num::Width;
use std::alloc::{AllocError, Global};

/// Whether a value is one of those that earlier cases have.
fn is_seen(seen: &IndexSet<u64>, value: Option<u64>) -> bool
    ensures { result ≡ is_seen seen.now.keys value }
{
    match value {
        Some(value) => seen.contains(&value),
        None => false,
    }
}

/// Puts the value of a case behind those of earlier ones.
fn note(seen: &mut IndexSet<u64>, value: Option<u64>) -> Result<(), AllocError>
    requires new { is_seen seen.old.keys value ≡ false }
    ensures { OnOk result (seen.new.keys ≡ seen.old.keys ++ option_to_list value) }
{
    if let Some(value) = value {
        seen.insert(value)?;
    }
    Ok(())
}

/// What a case stands for, or what is wrong with it. Its value stands behind those that are seen.
fn case<'m, 'a>(
    context: &Context<'m, 'a>,
    here: Here,
    width: Width,
    seen: &mut IndexSet<u64>,
    case: &RawCase<'a>,
) -> Result<(u64, u32), CheckError>
    ensures problem { IsAnswer result (case_problem context.now here width seen.old.keys case.now) }
    ensures case { IfOk result (λ made. made ≡ case_of context.now width case.now) }
    ensures seen { OnOk result (seen.new.keys ≡ seen.old.keys ++ option_to_list (literal_value width case.now.value.item)) }
{
    let other = !is_same_width(case.width.item, width);
    refuse_if(other, Rule::BadType, case.width.span)?;
    let counted = literal_value(width, &case.value.item);
    let second = is_seen(seen, counted);
    refuse_if(second, Rule::Duplicate, case.value.span)?;
    note(seen, counted)?;
    context.operand(here, width, false, &case.value)?;
    let target = context.target(here, &case.label)?;
    Ok((constant_of(width, &case.value.item), target))
}

/// What the cases of a switch of this width stand for, or what is wrong with them.
fn cases<'m, 'a>(
    alloc: Global,
    context: &Context<'m, 'a>,
    here: Here,
    width: Width,
    cases: &[RawCase<'a>],
) -> Result<Items<(u64, u32)>, CheckError>
    ensures problem { IsAnswer result (cases_problem context.now here width [] cases.now) }
    ensures cases { IfOk result (λ made. made ≡ map (case_of context.now width) cases.now) }
{
    let mut seen = IndexSet::new(alloc);
    let mut made = Vec::new(alloc);
    for each in cases {
        made.push(case(context, here, width, &mut seen, each)?)?;
    }
    Ok(Items::from(made))
}

/// What a switch becomes, or what is wrong with it.
fn switch<'m, 'a>(
    alloc: Global,
    context: &Context<'m, 'a>,
    here: Here,
    width: Width,
    value: &At<RawValue<'a>>,
    other: &At<Name<'a>>,
    written: &[RawCase<'a>],
) -> Result<Terminator, CheckError>
    ensures problem { IsAnswer result (switch_problem context.now here width value.now other.now written.now) }
    ensures term { IfOk result (λ term. term ≡ switch_of context.now width value.now.item other.now.item written.now) }
{
    let value = context.operand(here, width, false, value)?;
    let other = context.target(here, other)?;
    let cases = cases(alloc, context, here, width, written)?;
    Ok(Terminator::Switch(width, value, other, cases))
}

/// What a terminator becomes, or what is wrong with it; `word` is the place of its word.
pub fn term<'m, 'a>(
    alloc: Global,
    context: &Context<'m, 'a>,
    here: Here,
    word: Span,
    term: &RawTerm<'a>,
) -> Result<Terminator, CheckError>
    ensures problem { IsAnswer result (term_problem context.now here word term.now) }
    ensures term { IfOk result (λ made. made ≡ term_of context.now term.now) }
{
    match term {
        RawTerm::Return(None) => {
            let other = !is_same_type(context.ret(), Ty::Void);
            refuse_if(other, Rule::BadType, word)?;
            Ok(Terminator::Return(None))
        }
        RawTerm::Return(Some((width, value))) => {
            let other = !is_same_type(context.ret(), Ty::Int(*width));
            refuse_if(other, Rule::BadType, word)?;
            let value = context.operand(here, *width, false, value)?;
            Ok(Terminator::Return(Some(value)))
        }
        RawTerm::Jump(target) => Ok(Terminator::Jump(context.target(here, target)?)),
        RawTerm::Branch(test, one, other) => {
            let test = context.operand(here, Width::I1, false, test)?;
            let one = context.target(here, one)?;
            let other = context.target(here, other)?;
            Ok(Terminator::Branch(test, one, other))
        }
        RawTerm::Switch(width, value, other, written) => {
            switch(
                alloc,
                context,
                here,
                *width,
                value,
                other,
                written.as_slice(),
            )
        }
        RawTerm::Unreachable => Ok(Terminator::Unreachable),
    }
}
