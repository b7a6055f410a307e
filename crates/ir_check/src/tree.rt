//! What the globals and functions of a tree become, in text order, or what is wrong with them.
ghost use Rattle.std.specs.Prelude.{◌≡◌, ◌++◌, ◌<◌, ◌≤◌, ◌+◌, ◌^◌, [], map, option_map, option_to_list, IfOk, OnOk};
ghost use Rattle.ir_types.specs.Definitions.{name_problem, nothing, symbol_name};
ghost use Rattle.ir_types.specs.Order.{Global as GlobalItem, items_in_order, starts_before};
ghost use Rattle.ir_types.specs.Rules.{after_item, at_top, item_problem, items_problem, no_context, nowhere, symbols_of, tree_problem};
ghost use Rattle.ir_types.specs.Size.{items};
ghost use Rattle.ir_types.specs.Uses.{value_problem};
ghost use Rattle.ir_types.specs.ModuleOf.{function_of, global_of};
ghost use Rattle.ir_uses.specs.Answers.{IsAnswer};
ghost use Rattle.ir_check.specs.Items.{IsFew, function_in, global_in, item_in, made_of, next_item};

use crate::functions::function;
use ir_types::items::Items;
use ir_types::name::Spelling;
use ir_types::rules::{Here, Meaning};
use ir_types::span::At;
use ir_types::syntax;
use ir_types::tree::{Raw, RawFunction, RawGlobal, Ty};
use ir_uses::definitions::{Definitions, symbol_name};
use ir_uses::error::CheckError;
use ir_uses::literals::constant_of;
use ir_uses::uses::Context;
use std::alloc::{AllocError, Global};
use std::marker::Model;

/// A global or a function of a tree.
#[derive(Clone, Copy)]
pub enum Part<'m, 'a> {
    Global(&'m RawGlobal<'a>),
    Function(&'m RawFunction<'a>),
}

/// What a part of a tree becomes.
#[derive(Drop)]
pub enum Made<'a> {
    Global(syntax::Global<'a>),
    Function(syntax::Function<'a>),
}

/// What stands before a global or a function of a tree: what the names mean, and how many of both there are.
#[derive(Drop)]
pub struct Passed<'a> {
    before: Definitions<'a>,
    globals: u32,
    functions: u32,
}

impl<'a> Model for Passed<'a> {
    ghost use Rattle.ir_types.specs.Rules as rules;

    ghost Value = { rules.Passed };

    ghost view = { λ p. record { before = p.before; globals = p.globals; functions = p.functions } };
}

fn starts_before(function: &RawFunction<'_>, global: &RawGlobal<'_>) -> bool
    ensures { result ≡ starts_before function.now global.now }
{
    function.name.span.start < global.name.span.start
}

impl<'a> Passed<'a> {
    /// Before the first of both.
    fn at_top(alloc: Global) -> Passed<'a>
        ensures { result ≡ at_top }
    {
        Passed {
            before: Definitions::new(alloc),
            globals: 0,
            functions: 0,
        }
    }

    /// Refuses the name of the next part, if an earlier part has it.
    fn check_symbol(&self, name: &At<Spelling<'a>>) -> Result<(), CheckError>
        ensures { IsAnswer result (name_problem self.now.before (symbol_name name.now)) }
    {
        self.before.check_name(&symbol_name(name))
    }

    /// The definitions alone.
    fn into_before(self) -> Definitions<'a>
        ensures { result ≡ self.entry.before }
    {
        let Passed { before, .. } = self;
        before
    }

    /// Of the next global and the next function the one whose name starts earlier; `None` behind the last.
    fn next<'m>(&self, raw: &'m Raw<'a>) -> Option<Part<'m, 'a>>
        ensures { option_map item_in result ≡ next_item raw.now self.now }
    {
        let global = raw.globals.get(self.globals as usize);
        let function = raw.functions.get(self.functions as usize);
        match (global, function) {
            (Some(global), Some(function)) => {
                if starts_before(function, global) {
                    Some(Part::Function(function))
                } else {
                    Some(Part::Global(global))
                }
            }
            (Some(global), None) => Some(Part::Global(global)),
            (None, Some(function)) => Some(Part::Function(function)),
            (None, None) => None,
        }
    }

    /// Goes behind a part.
    fn pass(&mut self, part: Part<'_, 'a>) -> Result<(), AllocError>
        requires few_globals { self.old.globals + 1 < 2 ^ 32 }
        requires few_functions { self.old.functions + 1 < 2 ^ 32 }
        ensures { OnOk result (self.new ≡ after_item self.old (item_in part.entry)) }
    {
        match part {
            Part::Global(global) => {
                let meaning = Meaning::Global(self.globals, global.width);
                self.before.define(&symbol_name(&global.name), meaning)?;
                self.globals += 1;
            }
            Part::Function(function) => {
                let meaning = Meaning::Function(self.functions);
                self.before.define(&symbol_name(&function.name), meaning)?;
                self.functions += 1;
            }
        }
        Ok(())
    }
}

/// What the names of a tree mean.
fn symbols_of<'a>(alloc: Global, raw: &Raw<'a>) -> Result<Definitions<'a>, AllocError>
    requires few { items raw.now ≤ 2 ^ 26 }
    ensures { IfOk result (λ symbols. symbols ≡ symbols_of raw.now) }
{
    let mut passed = Passed::at_top(alloc);
    while let Some(part) = passed.next(raw) {
        passed.pass(part)?;
    }
    Ok(passed.into_before())
}

/// Refuses the value of a global at a place in this context.
fn check_value_in<'m, 'a>(
    context: &Context<'m, 'a>,
    global: &RawGlobal<'a>,
) -> Result<(), CheckError>
    ensures { IsAnswer result (value_problem context.now nowhere global.now.width global.now.value) }
{
    let nowhere = Here { block: 0, instr: 0 };
    context.operand(nowhere, global.width, false, &global.value)?;
    Ok(())
}

/// Refuses the value of a global, before which nothing is defined.
fn check_value<'a>(alloc: Global, global: &RawGlobal<'a>) -> Result<(), CheckError>
    ensures { IsAnswer result (value_problem no_context nowhere global.now.width global.now.value) }
{
    let nothing = Definitions::new(alloc);
    let context = Context::new(Default::default(), &nothing, Ty::Void, &nothing);
    check_value_in(&context, global)
}

/// What a global becomes, or what is wrong with it.
fn global<'a>(
    alloc: Global,
    passed: &Passed<'a>,
    global: &RawGlobal<'a>,
) -> Result<syntax::Global<'a>, CheckError>
    ensures problem { IsAnswer result (item_problem [] nothing passed.now (GlobalItem global.now)) }
    ensures global { IfOk result (λ made. made ≡ global_of global.now) }
{
    passed.check_symbol(&global.name)?;
    check_value(alloc, global)?;
    Ok(syntax::Global {
        name: global.name.item.copied(),
        width: global.width,
        value: constant_of(global.width, &global.value.item),
    })
}

/// What a part of a tree becomes, or what is wrong with it. `symbols` is what the names of the tree mean.
fn checked_part<'m, 'a>(
    alloc: Global,
    functions: &[RawFunction<'a>],
    symbols: &Definitions<'a>,
    passed: &Passed<'a>,
    part: Part<'m, 'a>,
) -> Result<Made<'a>, CheckError>
    requires few { IsFew (item_in part) }
    ensures problem { IsAnswer result (item_problem functions.now symbols.now passed.now (item_in part.entry)) }
    ensures made { IfOk result (λ made. made ≡ made_of functions.now symbols.now (item_in part.entry)) }
{
    match part {
        Part::Global(each) => Ok(Made::Global(global(alloc, passed, each)?)),
        Part::Function(each) => {
            passed.check_symbol(&each.name)?;
            Ok(Made::Function(function(alloc, functions, symbols, each)?))
        }
    }
}

/// Globals and functions, each in text order.
#[derive(Drop)]
pub struct Parts<'a> {
    pub globals: Items<syntax::Global<'a>>,
    pub functions: Items<syntax::Function<'a>>,
}

impl<'a> Parts<'a> {
    fn new(alloc: Global) -> Parts<'a>
        ensures globals { result.globals ≡ [] }
        ensures functions { result.functions ≡ [] }
    {
        Parts {
            globals: Items::new(alloc),
            functions: Items::new(alloc),
        }
    }

    fn push(&mut self, made: Made<'a>) -> Result<(), AllocError>
        ensures globals { OnOk result (self.new.globals ≡ self.old.globals ++ option_to_list (global_in made.entry)) }
        ensures functions { OnOk result (self.new.functions ≡ self.old.functions ++ option_to_list (function_in made.entry)) }
    {
        match made {
            Made::Global(global) => self.globals.push(global)?,
            Made::Function(function) => self.functions.push(function)?,
        }
        Ok(())
    }
}

/// What the parts of a tree become, or what is wrong with them. `symbols` is what the names of the tree mean.
fn checked_parts<'a>(
    alloc: Global,
    raw: &Raw<'a>,
    symbols: &Definitions<'a>,
) -> Result<Parts<'a>, CheckError>
    requires few { items raw.now ≤ 2 ^ 26 }
    ensures problem { IsAnswer result (items_problem raw.now.functions symbols.now at_top (items_in_order raw.now)) }
    ensures globals { IfOk result (λ parts. parts.globals ≡ map global_of raw.now.globals) }
    ensures functions { IfOk result (λ parts. parts.functions ≡ map (function_of raw.now.functions symbols.now) raw.now.functions) }
{
    let functions = raw.functions.as_slice();
    let mut passed = Passed::at_top(alloc);
    let mut parts = Parts::new(alloc);
    while let Some(each) = passed.next(raw) {
        parts.push(checked_part(alloc, functions, symbols, &passed, each)?)?;
        passed.pass(each)?;
    }
    Ok(parts)
}

/// What the parts of a tree become, or what is wrong with the tree.
pub fn tree_parts<'a>(alloc: Global, raw: &Raw<'a>) -> Result<Parts<'a>, CheckError>
    requires few { items raw.now ≤ 2 ^ 26 }
    ensures problem { IsAnswer result (tree_problem raw.now) }
    ensures globals { IfOk result (λ parts. parts.globals ≡ map global_of raw.now.globals) }
    ensures functions { IfOk result (λ parts. parts.functions ≡ map (function_of raw.now.functions (symbols_of raw.now)) raw.now.functions) }
{
    let symbols = symbols_of(alloc, raw)?;
    checked_parts(alloc, raw, &symbols)
}
