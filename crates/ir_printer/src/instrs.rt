//! Instructions.
ghost use Rattle.std.specs.Prelude.{◌≡◌, ◌++◌, [], OnOk, if◌then◌else◌};
ghost use Rattle.ir_printer.specs.Text.{operands_text, cast_operand_text, choices_text, operation_text, listed, arguments_texts, call_text, kind_text, result_text, alloca_line, instr_line};

use crate::growing::Text;
use crate::values::{put_global, put_local, put_typed, put_value, put_variable, variable_type};
use crate::words::{bin_text, cast_text, pred_text, type_text, width_text};
use ir_types::module::Module;
use ir_types::name::Name;
use ir_types::syntax::{Block, Function, Instr, Kind, Operand};
use mc_host::{Failed, Sink};
use mc_num::{Op, Width};

fn put_operands(
    out: &mut Text,
    function: &Function<'_>,
    block: &Block<'_>,
    width: Width,
    operands: &[Operand],
) -> Result<(), Failed>
    ensures { OnOk result (out.new.written ≡ out.old.written ++ operands_text function.now block.now width operands.now) }
{
    match operands {
        [one, other] => {
            put_typed(out, function, block, width, *one)?;
            out.put(b", ")?;
            put_value(out, function, block, width, *other)
        }
        _ => Ok(()),
    }
}

fn put_cast_operand(
    out: &mut Text,
    function: &Function<'_>,
    block: &Block<'_>,
    from: Width,
    to: Width,
    operands: &[Operand],
) -> Result<(), Failed>
    ensures { OnOk result (out.new.written ≡ out.old.written ++ cast_operand_text function.now block.now from to operands.now) }
{
    match operands {
        [one] => {
            put_typed(out, function, block, from, *one)?;
            out.put(b" to ")?;
            out.put(width_text(to))
        }
        _ => Ok(()),
    }
}

fn put_choices(
    out: &mut Text,
    function: &Function<'_>,
    block: &Block<'_>,
    width: Width,
    operands: &[Operand],
) -> Result<(), Failed>
    ensures { OnOk result (out.new.written ≡ out.old.written ++ choices_text function.now block.now width operands.now) }
{
    match operands {
        [test, one, other] => {
            put_typed(out, function, block, Width::I1, *test)?;
            out.put(b", ")?;
            put_typed(out, function, block, width, *one)?;
            out.put(b", ")?;
            put_typed(out, function, block, width, *other)
        }
        _ => Ok(()),
    }
}

/// An operation of these operands.
fn put_operation(
    out: &mut Text,
    function: &Function<'_>,
    block: &Block<'_>,
    op: Op,
    operands: &[Operand],
) -> Result<(), Failed>
    ensures { OnOk result (out.new.written ≡ out.old.written ++ operation_text function.now block.now op operands.now) }
{
    match op {
        Op::Bin(bin, width) => {
            out.put(bin_text(bin))?;
            out.put(b" ")?;
            put_operands(out, function, block, width, operands)
        }
        Op::Icmp(pred, width) => {
            out.put(b"icmp ")?;
            out.put(pred_text(pred))?;
            out.put(b" ")?;
            put_operands(out, function, block, width, operands)
        }
        Op::Cast(cast, from, to) => {
            out.put(cast_text(cast))?;
            out.put(b" ")?;
            put_cast_operand(out, function, block, from, to, operands)
        }
        Op::Select(width) => {
            out.put(b"select ")?;
            put_choices(out, function, block, width, operands)
        }
    }
}

/// A separator, unless it is the first item that follows.
pub(crate) fn put_separator(out: &mut Text, is_first: bool, separator: &[u8]) -> Result<(), Failed>
    ensures { OnOk result (out.new.written ≡ out.old.written ++ (if is_first then [] else separator.now)) }
{
    if is_first {
        return Ok(());
    }
    out.put(separator)
}

/// The arguments of a call, each with the type of its parameter.
fn put_arguments(
    out: &mut Text,
    function: &Function<'_>,
    block: &Block<'_>,
    params: &[(Width, Name<'_>)],
    arguments: &[Operand],
) -> Result<(), Failed>
    ensures { OnOk result (out.new.written ≡ out.old.written ++ listed (arguments_texts function.now block.now params.now arguments.now)) }
{
    for index in 0..params.len().min(arguments.len()) {
        put_separator(out, index == 0, b", ")?;
        put_typed(out, function, block, params[index].0, arguments[index])?;
    }
    Ok(())
}

fn put_call(
    out: &mut Text,
    function: &Function<'_>,
    block: &Block<'_>,
    callee: &Function<'_>,
    arguments: &[Operand],
) -> Result<(), Failed>
    ensures { OnOk result (out.new.written ≡ out.old.written ++ call_text function.now block.now arguments.now callee.now) }
{
    out.put(b"call ")?;
    out.put(type_text(callee.ret))?;
    out.put(b" ")?;
    put_global(out, &callee.name)?;
    out.put(b"(")?;
    put_arguments(out, function, block, callee.params.as_slice(), arguments)?;
    out.put(b")")
}

fn put_kind(
    out: &mut Text,
    program: &Module<'_>,
    function: &Function<'_>,
    block: &Block<'_>,
    kind: &Kind,
) -> Result<(), Failed>
    ensures { OnOk result (out.new.written ≡ out.old.written ++ kind_text program.now function.now block.now kind.now) }
{
    match kind {
        Kind::Load(variable) => {
            out.put(b"load ")?;
            out.put(width_text(variable_type(program, function, *variable)))?;
            out.put(b", ptr ")?;
            put_variable(out, program, function, *variable)
        }
        Kind::Store(value, variable) => {
            out.put(b"store ")?;
            let width = variable_type(program, function, *variable);
            put_typed(out, function, block, width, *value)?;
            out.put(b", ptr ")?;
            put_variable(out, program, function, *variable)
        }
        Kind::Compute(op, operands) => {
            put_operation(out, function, block, *op, operands.as_slice())
        }
        Kind::Call(callee, arguments) => match program.functions().get(*callee as usize) {
            Some(callee) => put_call(out, function, block, callee, arguments.as_slice()),
            None => Ok(()),
        },
    }
}

fn put_result(out: &mut Text, result_name: &Option<Name<'_>>) -> Result<(), Failed>
    ensures { OnOk result (out.new.written ≡ out.old.written ++ result_text result_name.now) }
{
    match result_name {
        Some(name) => {
            put_local(out, name)?;
            out.put(b" = ")
        }
        None => Ok(()),
    }
}

pub(crate) fn put_instr(
    out: &mut Text,
    program: &Module<'_>,
    function: &Function<'_>,
    block: &Block<'_>,
    instr: &Instr<'_>,
) -> Result<(), Failed>
    ensures { OnOk result (out.new.written ≡ out.old.written ++ instr_line program.now function.now block.now instr.now) }
{
    out.put(b"  ")?;
    put_result(out, &instr.result)?;
    put_kind(out, program, function, block, &instr.kind)?;
    out.put(b"\n")
}

pub(crate) fn put_alloca(out: &mut Text, variable: &(Width, Name<'_>)) -> Result<(), Failed>
    ensures { OnOk result (out.new.written ≡ out.old.written ++ alloca_line variable.now) }
{
    out.put(b"  ")?;
    put_local(out, &variable.1)?;
    out.put(b" = alloca ")?;
    out.put(width_text(variable.0))?;
    out.put(b"\n")
}
