//! Names, constants and operands.
ghost use Rattle.std.specs.Prelude.{◌≡◌, ◌++◌, ◌≤◌, ◌<◌, ◌-◌, ◌^◌, pos, negsuc, nat_lt, cond, OnOk};
ghost use Rattle.mc_host.specs.Streams.{Puts};
ghost use Rattle.ir_types.specs.TreeOf.{signed, register_name};
ghost use Rattle.std.specs.Option.{option_copied};
ghost use Rattle.ir_printer.specs.Text.{local_text, global_text, constant_text, value_text, typed_text, variable_type, variable_text, label_text};

use crate::growing::Text;
use crate::spelling::{name_to, text_to};
use crate::words::width_text;
use ir_types::module::Module;
use ir_types::name::{Name, Spelling};
use ir_types::syntax::{Block, Function, Operand, Variable};
use itoa::Buffer;
use mc_host::{Failed, Sink};
use mc_num::Width;

pub(crate) fn put_local(out: &mut Text, name: &Name<'_>) -> Result<(), Failed>
    ensures { OnOk result (out.new.written ≡ out.old.written ++ local_text name.now) }
{
    out.put(b"%")?;
    name_to(name, out)
}

pub(crate) fn put_global(out: &mut Text, name: &Spelling<'_>) -> Result<(), Failed>
    ensures { OnOk result (out.new.written ≡ out.old.written ++ global_text name.now) }
{
    out.put(b"@")?;
    text_to(name.bytes(), out)
}

/// A value below 2^63 as it is, and a greater one by how far it is from the greatest, which is -1.
fn signed_below(value: u64, half: u64, greatest: u64) -> i64
    requires half { half ≤ 2 ^ 63 }
    requires greatest { greatest - half < 2 ^ 63 }
    ensures { result ≡ cond (nat_lt value half) (pos value) (negsuc (greatest - value)) }
{
    if value < half {
        return value as i64;
    }
    -1 - greatest.saturating_sub(value) as i64
}

/// A value of a width with a sign.
fn signed(width: Width, value: u64) -> i64
    ensures { result ≡ signed width value }
{
    match width {
        Width::I1 => signed_below(value, 1, 1),
        Width::I8 => signed_below(value, 0x80, 0xff),
        Width::I16 => signed_below(value, 0x8000, 0xffff),
        Width::I32 => signed_below(value, 0x8000_0000, 0xffff_ffff),
        Width::I64 => signed_below(value, 0x8000_0000_0000_0000, 0xffff_ffff_ffff_ffff),
    }
}

/// Puts a constant of a width as the canonical text spells it: `true` or `false` at one bit, else a decimal number with
/// its sign. It takes no memory.
///
/// `Failed` comes only where the sink's count of faults rose in this call; a first part of the text was then added.
pub fn constant_to<S: Sink>(width: Width, value: u64, sink: &mut S) -> Result<(), Failed>
    ensures { Puts (constant_text width value) result (S.state sink.old) (S.state sink.new) }
{
    if width == Width::I1 {
        return sink.put(if value == 1 { b"true" } else { b"false" });
    }
    let mut digits = Buffer::new();
    sink.put(digits.format(signed(width, value)).as_bytes())
}

pub(crate) fn put_constant(out: &mut Text, width: Width, value: u64) -> Result<(), Failed>
    ensures { OnOk result (out.new.written ≡ out.old.written ++ constant_text width value) }
{
    constant_to(width, value, out)
}

pub(crate) fn put_value(
    out: &mut Text,
    function: &Function<'_>,
    block: &Block<'_>,
    width: Width,
    value: Operand,
) -> Result<(), Failed>
    ensures { OnOk result (out.new.written ≡ out.old.written ++ value_text function.now block.now width value) }
{
    match value {
        Operand::Const(number) => put_constant(out, width, number),
        Operand::Param(index) => match function.params.get(index as usize) {
            Some((_, name)) => put_local(out, name),
            None => Ok(()),
        },
        Operand::Reg(index) => match result_name(block, index) {
            Some(name) => put_local(out, name),
            None => Ok(()),
        },
    }
}

/// The name of the result of an instruction of the block.
fn result_name<'b, 'a>(block: &'b Block<'a>, index: u32) -> Option<&'b Name<'a>>
    ensures { option_copied result ≡ register_name block.now index }
{
    match block.instrs.get(index as usize) {
        Some(instr) => instr.result.as_ref(),
        None => None,
    }
}

/// A type and a value of it.
pub(crate) fn put_typed(
    out: &mut Text,
    function: &Function<'_>,
    block: &Block<'_>,
    width: Width,
    value: Operand,
) -> Result<(), Failed>
    ensures { OnOk result (out.new.written ≡ out.old.written ++ typed_text function.now block.now width value) }
{
    out.put(width_text(width))?;
    out.put(b" ")?;
    put_value(out, function, block, width, value)
}

/// The type of a variable.
pub(crate) fn variable_type(
    program: &Module<'_>,
    function: &Function<'_>,
    variable: Variable,
) -> Width
    ensures { result ≡ variable_type program.now function.now variable }
{
    match variable {
        Variable::Local(index) => match function.vars.get(index as usize) {
            Some((width, _)) => *width,
            None => Width::I32,
        },
        Variable::Global(index) => match program.globals().get(index as usize) {
            Some(global) => global.width,
            None => Width::I32,
        },
    }
}

pub(crate) fn put_variable(
    out: &mut Text,
    program: &Module<'_>,
    function: &Function<'_>,
    variable: Variable,
) -> Result<(), Failed>
    ensures { OnOk result (out.new.written ≡ out.old.written ++ variable_text program.now function.now variable) }
{
    match variable {
        Variable::Local(index) => match function.vars.get(index as usize) {
            Some((_, name)) => put_local(out, name),
            None => Ok(()),
        },
        Variable::Global(index) => match program.globals().get(index as usize) {
            Some(global) => put_global(out, &global.name),
            None => Ok(()),
        },
    }
}

/// `label` and the name of a block.
pub(crate) fn put_label(out: &mut Text, function: &Function<'_>, target: u32) -> Result<(), Failed>
    ensures { OnOk result (out.new.written ≡ out.old.written ++ label_text function.now target) }
{
    out.put(b"label ")?;
    match function.blocks.get(target as usize) {
        Some(block) => put_local(out, &block.name),
        None => Ok(()),
    }
}
