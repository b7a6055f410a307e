//! What a function becomes, or what is wrong with it.
ghost use Rattle.std.specs.Prelude.{◌≡◌, ◌<◌, ◌≤◌, ◌^◌, length, if◌then◌else◌, IfOk, OnOk};
ghost use Rattle.ir_types.specs.Rules.{after_params, body_problem, is_known_external, is_nil, locals_of, params_problem, takes_i32};
ghost use Rattle.ir_types.specs.Size.{function_items};
ghost use Rattle.ir_types.specs.ModuleOf.{function_of, numbered_from, params_from, width_of};
ghost use Rattle.ir_uses.specs.Answers.{IsAnswer};
ghost use Rattle.ir_check.specs.Parts.{function_in, function_problem};

use crate::blocks::{blocks, pass_blocks};
use crate::limits::is_above_limits;
use crate::reached::Reached;
use ir_types::items::Items;
use ir_types::name::Name;
use ir_types::rules::{Meaning, Rule};
use ir_types::syntax::Function;
use ir_types::tree::{RawFunction, RawParam, Ty};
use ir_uses::definitions::Definitions;
use ir_uses::error::{CheckError, refuse_if};
use ir_uses::types::{is_same_type, is_same_width};
use ir_uses::uses::Context;
use mc_num::Width;
use std::alloc::{AllocError, Global};

/// Goes behind parameters.
fn pass_params<'a>(before: &mut Definitions<'a>, params: &[RawParam<'a>]) -> Result<(), AllocError>
    requires few { length params.now < 2 ^ 32 }
    ensures { OnOk result (before.new ≡ after_params 0 before.old params.now) }
{
    for (index, param) in params.iter().enumerate() {
        before.define(&param.name, Meaning::Parameter(index as u32, param.width))?;
    }
    Ok(())
}

/// What the names of a function mean.
fn locals_of<'a>(alloc: Global, function: &RawFunction<'a>) -> Result<Definitions<'a>, AllocError>
    requires few { function_items function.now ≤ 2 ^ 26 }
    ensures { IfOk result (λ locals. locals ≡ locals_of function.now) }
{
    let mut before = Definitions::new(alloc);
    pass_params(&mut before, function.params.as_slice())?;
    let mut reached = Reached::behind(before);
    pass_blocks(&mut reached, function.blocks.as_slice())?;
    Ok(reached.into_before())
}

/// Parameters with their names, or what is wrong with them; they are passed on the way.
fn params<'a>(
    alloc: Global,
    before: &mut Definitions<'a>,
    params: &[RawParam<'a>],
) -> Result<Items<(Width, Name<'a>)>, CheckError>
    requires few { length params.now < 2 ^ 32 }
    ensures problem { IsAnswer result (params_problem 0 before.old params.now) }
    ensures after { OnOk result (before.new ≡ after_params 0 before.old params.now) }
    ensures params { IfOk result (λ made. made ≡ params_from 0 before.old params.now) }
{
    let mut made = Vec::new(alloc);
    for (index, param) in params.iter().enumerate() {
        before.check_name(&param.name)?;
        made.push((param.width, before.name_of(&param.name)))?;
        before.define(&param.name, Meaning::Parameter(index as u32, param.width))?;
    }
    Ok(Items::from(made))
}

/// The parameters of a declaration, whose names are their numbers.
fn numbered<'a>(
    alloc: Global,
    params: &[RawParam<'a>],
) -> Result<Items<(Width, Name<'a>)>, AllocError>
    requires few { length params.now < 2 ^ 32 }
    ensures { IfOk result (λ made. made ≡ numbered_from 0 params.now) }
{
    let mut made = Vec::new(alloc);
    for (index, param) in params.iter().enumerate() {
        made.push((param.width, Name::Number(index as u32)))?;
    }
    Ok(Items::from(made))
}

/// The parameters of a function that are written so, or of a declaration.
fn own_params<'a>(
    alloc: Global,
    function: &RawFunction<'a>,
    written: Items<(Width, Name<'a>)>,
) -> Result<Items<(Width, Name<'a>)>, AllocError>
    requires few { length function.now.params < 2 ^ 32 }
    ensures { IfOk result (λ params. params ≡ (if is_nil function.now.blocks then numbered_from 0 function.now.params else written.entry)) }
{
    if is_nil(function.blocks.as_slice()) {
        return numbered(alloc, function.params.as_slice());
    }
    Ok(written)
}

fn is_nil<T>(items: &[T]) -> bool
    ensures { result ≡ is_nil items.now }
{
    match items {
        [] => true,
        _ => false,
    }
}

fn takes_i32(params: &[RawParam<'_>]) -> bool
    ensures { result ≡ takes_i32 params.now }
{
    match params {
        [param] => is_same_width(param.width, Width::I32),
        _ => false,
    }
}

/// Whether a function has the name and type of one of the two that can be declared.
fn is_known_external(function: &RawFunction<'_>) -> bool
    ensures { result ≡ is_known_external function.now }
{
    let name = function.name.item.bytes();
    let params = function.params.as_slice();
    is_same_type(function.ret, Ty::Int(Width::I32))
        && ((name == b"getchar".as_slice() && is_nil(params))
            || (name == b"putchar".as_slice() && takes_i32(params)))
}

/// The width of what a function gives, if it gives anything.
fn width_of(ty: Ty) -> Option<Width>
    ensures { result ≡ width_of ty }
{
    match ty {
        Ty::Int(width) => Some(width),
        Ty::Void | Ty::Ptr => None,
    }
}

/// What the parameters and blocks of a function become, or what is wrong with them.
fn body<'m, 'a>(
    alloc: Global,
    context: &Context<'m, 'a>,
    function: &RawFunction<'a>,
) -> Result<Function<'a>, CheckError>
    requires few { function_items function.now ≤ 2 ^ 26 }
    ensures problem { IsAnswer result (body_problem context.now function.now) }
    ensures function { IfOk result (λ made. made ≡ function_in context.now function.now) }
{
    let mut before = Definitions::new(alloc);
    let params = params(alloc, &mut before, function.params.as_slice())?;
    let mut reached = Reached::behind(before);
    let mut vars = Vec::new(alloc);
    let blocks = blocks(
        alloc,
        context,
        &mut reached,
        &mut vars,
        function.blocks.as_slice(),
    )?;
    let params = own_params(alloc, function, params)?;
    Ok(Function {
        name: function.name.item.copied(),
        ret: width_of(function.ret),
        params,
        vars: Items::from(vars),
        blocks,
    })
}

/// What a function of a tree becomes, or what is wrong with it behind its name. `symbols` is what the names of the tree
/// mean.
pub fn function<'a>(
    alloc: Global,
    functions: &[RawFunction<'a>],
    symbols: &Definitions<'a>,
    function: &RawFunction<'a>,
) -> Result<Function<'a>, CheckError>
    requires few { function_items function.now ≤ 2 ^ 26 }
    ensures problem { IsAnswer result (function_problem functions.now symbols.now function.now) }
    ensures function { IfOk result (λ made. made ≡ function_of functions.now symbols.now function.now) }
{
    let unknown = is_nil(function.blocks.as_slice()) && !is_known_external(function);
    refuse_if(unknown, Rule::UnknownExternal, function.name.span)?;
    let above = is_above_limits(function);
    refuse_if(above, Rule::Limit, function.name.span)?;
    let locals = locals_of(alloc, function)?;
    let context = Context::new(functions, symbols, function.ret, &locals);
    body(alloc, &context, function)
}
