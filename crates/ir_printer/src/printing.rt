//! The canonical text of a module.
ghost use Rattle.std.specs.Prelude.{◌≡◌, ◌++◌, codes, map, not, IfOk, OnOk};
ghost use Rattle.std.specs.List.{flat_map};
ghost use Rattle.ir_types.specs.Rules.{is_nil};
ghost use Rattle.ir_printer.specs.Text.{listed, separated, type_of_param, param_text, type_text, global_text, head_text, blocks_text, function_text, global_line, text_of};

use crate::blocks::put_blocks;
use crate::growing::Text;
use crate::instrs::put_separator;
use crate::values::{put_constant, put_global, put_local};
use crate::words::{type_text, width_text};
use ir_types::module::Module;
use ir_types::name::Name;
use ir_types::syntax;
use ir_types::syntax::{Block, Function};
use mc_host::{Failed, Sink};
use mc_num::{NoMemory, Width};
use std::alloc::Global;

/// The parameters of a declaration: their types.
fn put_types(out: &mut Text, params: &[(Width, Name<'_>)]) -> Result<(), Failed>
    ensures { OnOk result (out.new.written ≡ out.old.written ++ listed (map type_of_param params.now)) }
{
    for index in 0..params.len() {
        put_separator(out, index == 0, b", ")?;
        out.put(width_text(params[index].0))?;
    }
    Ok(())
}

fn put_param(out: &mut Text, param: &(Width, Name<'_>)) -> Result<(), Failed>
    ensures { OnOk result (out.new.written ≡ out.old.written ++ param_text param.now) }
{
    out.put(width_text(param.0))?;
    out.put(b" ")?;
    put_local(out, &param.1)
}

/// The parameters of a definition.
fn put_params(out: &mut Text, params: &[(Width, Name<'_>)]) -> Result<(), Failed>
    ensures { OnOk result (out.new.written ≡ out.old.written ++ listed (map param_text params.now)) }
{
    for index in 0..params.len() {
        put_separator(out, index == 0, b", ")?;
        put_param(out, &params[index])?;
    }
    Ok(())
}

/// What a function gives, its name, and the parenthesis before its parameters.
fn put_head(out: &mut Text, function: &Function<'_>) -> Result<(), Failed>
    ensures { OnOk result (out.new.written ≡ out.old.written ++ (type_text function.now.ret ++ (codes " " ++ (global_text function.now.name ++ codes "(")))) }
{
    out.put(type_text(function.ret))?;
    out.put(b" ")?;
    put_global(out, &function.name)?;
    out.put(b"(")
}

fn put_declaration(out: &mut Text, function: &Function<'_>) -> Result<(), Failed>
    ensures { OnOk result (out.new.written ≡ out.old.written ++ (codes "declare " ++ (head_text function.now (map type_of_param function.now.params) ++ codes "\n"))) }
{
    out.put(b"declare ")?;
    put_head(out, function)?;
    put_types(out, function.params.as_slice())?;
    out.put(b")\n")
}

fn put_definition(
    out: &mut Text,
    program: &Module<'_>,
    function: &Function<'_>,
) -> Result<(), Failed>
    ensures { OnOk result (out.new.written ≡ out.old.written ++ (codes "define " ++ (head_text function.now (map param_text function.now.params) ++ (codes " {\n" ++ (blocks_text program.now function.now function.now.blocks ++ codes "}\n"))))) }
{
    out.put(b"define ")?;
    put_head(out, function)?;
    put_params(out, function.params.as_slice())?;
    out.put(b") {\n")?;
    put_blocks(out, program, function, function.blocks.as_slice())?;
    out.put(b"}\n")
}

fn put_function(out: &mut Text, program: &Module<'_>, function: &Function<'_>) -> Result<(), Failed>
    ensures { OnOk result (out.new.written ≡ out.old.written ++ function_text program.now function.now) }
{
    if function.blocks.as_slice().is_empty() {
        return put_declaration(out, function);
    }
    put_definition(out, program, function)
}

fn put_global_line(out: &mut Text, global: &syntax::Global<'_>) -> Result<(), Failed>
    ensures { OnOk result (out.new.written ≡ out.old.written ++ global_line global.now) }
{
    put_global(out, &global.name)?;
    out.put(b" = global ")?;
    out.put(width_text(global.width))?;
    out.put(b" ")?;
    put_constant(out, global.width, global.value)?;
    out.put(b"\n")
}

fn put_globals(out: &mut Text, globals: &[syntax::Global<'_>]) -> Result<(), Failed>
    ensures { OnOk result (out.new.written ≡ out.old.written ++ flat_map global_line globals.now) }
{
    for global in globals {
        put_global_line(out, global)?;
    }
    Ok(())
}

/// The functions, each behind an empty line unless it is the very first.
fn put_functions(
    out: &mut Text,
    program: &Module<'_>,
    has_globals: bool,
    functions: &[Function<'_>],
) -> Result<(), Failed>
    ensures { OnOk result (out.new.written ≡ out.old.written ++ separated (codes "\n") (not has_globals) (map (function_text program.now) functions.now)) }
{
    for index in 0..functions.len() {
        put_separator(out, !has_globals && index == 0, b"\n")?;
        put_function(out, program, &functions[index])?;
    }
    Ok(())
}

fn put_module(out: &mut Text, program: &Module<'_>) -> Result<(), Failed>
    ensures { OnOk result (out.new.written ≡ out.old.written ++ text_of program.now) }
{
    put_globals(out, program.globals())?;
    put_functions(
        out,
        program,
        !program.globals().is_empty(),
        program.functions(),
    )
}

/// The canonical text of a module: globals, declarations and definitions, each line ended by a line feed.
///
/// `NoMemory` where an allocation was refused.
pub fn print(alloc: Global, program: &Module<'_>) -> Result<Vec<u8>, NoMemory>
    ensures { IfOk result (λ text. text.items ≡ text_of program.now) }
{
    let mut out = Text::new(alloc);
    match put_module(&mut out, program) {
        Ok(()) => Ok(out.into_bytes()),
        Err(Failed) => Err(NoMemory),
    }
}
