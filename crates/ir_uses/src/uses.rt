//! What values, addresses, labels and callees stand for, or what is wrong with them.
ghost use Rattle.std.specs.Prelude.{◌≡◌, Some, IfOk, length};
ghost use Rattle.std.specs.Option.{option_copied};
ghost use Rattle.ir_types.specs.Uses.{address_meaning, address_problem, callee_problem, function_named, item_problem, label_problem, params_of};
ghost use Rattle.ir_types.specs.Definitions.{meaning_of};
ghost use Rattle.ir_types.specs.ModuleOf.{function_number, operand_of, target_of, variable_of};
ghost use Rattle.ir_types.specs.declared.name.Name.TheVariants.{Text};
ghost use Rattle.ir_uses.specs.Answers.{IsAnswer};

use crate::definitions::Definitions;
use crate::error::{CheckError, broken, refuse_if};
use crate::literals::{is_in_range, residue};
use crate::meanings::{
    block_meaning, function_meaning, is_across, is_entry, is_no_block, is_other_value,
    is_other_variable, is_undefined, operand_meaning, variable_meaning,
};
use crate::types::{is_same_type, is_same_width, is_void};
use ir_types::name::{Name, Spelling};
use ir_types::rules::{Here, Meaning, Rule};
use ir_types::span::At;
use ir_types::syntax::{Operand, Variable};
use ir_types::tree::{Address, RawFunction, RawParam, RawValue, Ty};
use mc_num::Width;
use std::marker::Model;

/// What stands around the places of a function: the functions of the tree, what the names of the tree mean, what the
/// function gives, and what the names of the whole function mean.
#[derive(Drop)]
pub struct Context<'m, 'a> {
    functions: &'m [RawFunction<'a>],
    symbols: &'m Definitions<'a>,
    ret: Ty,
    locals: &'m Definitions<'a>,
}

impl<'m, 'a> Model for Context<'m, 'a> {
    ghost use Rattle.ir_types.specs.Uses as uses;

    ghost Value = { uses.Context };

    ghost view = { λ c. record { functions = c.functions.now; symbols = c.symbols.now; ret = c.ret; locals = c.locals.now } };
}

/// A function that is called: its number among the functions, and its parameters.
#[derive(Drop)]
pub struct Callee<'m, 'a> {
    pub number: u32,
    pub params: &'m [RawParam<'a>],
}

impl<'m, 'a> Context<'m, 'a> {
    /// The surroundings of these parts.
    pub fn new(
        functions: &'m [RawFunction<'a>],
        symbols: &'m Definitions<'a>,
        ret: Ty,
        locals: &'m Definitions<'a>,
    ) -> Context<'m, 'a>
        ensures { result ≡ record { functions = functions.now; symbols = symbols.now; ret = ret; locals = locals.now } }
    {
        Context {
            functions,
            symbols,
            ret,
            locals,
        }
    }

    /// What the function gives.
    pub fn ret(&self) -> Ty
        ensures { result ≡ self.now.ret }
    {
        self.ret
    }

    /// What a value stands for, or what is wrong with it. `width` is the written one, and `differs` where another type
    /// is due.
    pub fn operand(
        &self,
        here: Here,
        width: Width,
        differs: bool,
        value: &At<RawValue<'a>>,
    ) -> Result<Operand, CheckError>
        ensures problem { IsAnswer result (item_problem self.now here width differs value.now.span value.now.item) }
        ensures operand { IfOk result (λ operand. operand ≡ operand_of self.now width value.now.item) }
    {
        match &value.item {
            RawValue::Local(name) => {
                let meaning = self.locals.meaning_of(name);
                let other = differs || is_other_value(width, meaning);
                refuse_if(is_undefined(here, meaning), Rule::Undefined, value.span)?;
                refuse_if(other, Rule::BadType, value.span)?;
                refuse_if(is_across(here, meaning), Rule::CrossBlock, value.span)?;
                Ok(operand_meaning(meaning))
            }
            RawValue::Number(number) => {
                refuse_if(differs, Rule::BadType, value.span)?;
                let wide = !is_in_range(width, *number);
                refuse_if(wide, Rule::ConstantRange, value.span)?;
                Ok(Operand::Const(residue(width, *number)))
            }
            RawValue::Wide => {
                refuse_if(differs, Rule::BadType, value.span)?;
                Err(broken(Rule::ConstantRange, value.span))
            }
            RawValue::Bool(is_true) => {
                let other = differs || !is_same_width(width, Width::I1);
                refuse_if(other, Rule::BadType, value.span)?;
                Ok(Operand::Const(if *is_true { 1 } else { 0 }))
            }
            RawValue::Zero => {
                refuse_if(differs, Rule::BadType, value.span)?;
                Ok(Operand::Const(0))
            }
        }
    }

    /// What a name means in the function.
    pub fn local(&self, name: &Name<'a>) -> Option<Meaning>
        ensures { result ≡ meaning_of self.now.locals name.now }
    {
        self.locals.meaning_of(name)
    }

    fn address_meaning(&self, address: &Address<'a>) -> Option<Meaning>
        ensures { result ≡ address_meaning self.now address.now }
    {
        match address {
            Address::Local(name) => self.locals.meaning_of(name),
            Address::Global(name) => self.symbols.meaning_of(&Name::Text(name.copied())),
        }
    }

    /// The variable of an address where one of this width is due, or what is wrong with it.
    pub fn variable(
        &self,
        here: Here,
        width: Width,
        address: &At<Address<'a>>,
    ) -> Result<Variable, CheckError>
        ensures problem { IsAnswer result (address_problem self.now here width address.now) }
        ensures variable { IfOk result (λ variable. variable ≡ variable_of self.now address.now.item) }
    {
        let meaning = self.address_meaning(&address.item);
        refuse_if(is_undefined(here, meaning), Rule::Undefined, address.span)?;
        let other = is_other_variable(width, meaning);
        refuse_if(other, Rule::BadType, address.span)?;
        Ok(variable_meaning(meaning))
    }

    /// The number of the block of a label, or what is wrong with it.
    pub fn target(&self, here: Here, label: &At<Name<'a>>) -> Result<u32, CheckError>
        ensures problem { IsAnswer result (label_problem self.now here label.now) }
        ensures target { IfOk result (λ target. target ≡ target_of self.now label.now.item) }
    {
        let meaning = self.locals.meaning_of(&label.item);
        refuse_if(is_undefined(here, meaning), Rule::Undefined, label.span)?;
        refuse_if(is_no_block(meaning), Rule::BadType, label.span)?;
        refuse_if(is_entry(meaning), Rule::EntryHasPredecessor, label.span)?;
        Ok(block_meaning(meaning))
    }

    fn function_named(&self, meaning: Option<Meaning>) -> Option<&'m RawFunction<'a>>
        ensures { option_copied result ≡ function_named self.now meaning }
    {
        match meaning {
            Some(Meaning::Function(index)) => self.functions.get(index as usize),
            _ => None,
        }
    }

    /// The function that is called where this type, so many arguments and maybe a name for the result are written, or
    /// what is wrong with it.
    pub fn callee(
        &self,
        ty: Ty,
        named: bool,
        count: usize,
        name: &At<Spelling<'a>>,
    ) -> Result<Callee<'m, 'a>, CheckError>
        ensures problem { IsAnswer result (callee_problem self.now ty named count name.now) }
        ensures number { IfOk result (λ callee. callee.number ≡ function_number self.now name.now.item) }
        ensures params { IfOk result (λ callee. callee.params.now ≡ params_of self.now name.now.item) }
        ensures count { IfOk result (λ callee. length callee.params.now ≡ count) }
    {
        let meaning = self.symbols.meaning_of(&Name::Text(name.item.copied()));
        refuse_if(meaning.is_none(), Rule::Undefined, name.span)?;
        match self.function_named(meaning) {
            Some(function) => {
                let params = function.params.as_slice();
                let other = !is_same_type(function.ret, ty) || params.len() != count;
                refuse_if((is_void(ty) && named) || other, Rule::BadType, name.span)?;
                let number = function_meaning(meaning);
                Ok(Callee { number, params })
            }
            None => { Err(broken(Rule::BadType, name.span)) }
        }
    }
}
