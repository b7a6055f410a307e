//! Names, constants and operands of expressions.
ghost use Rattle.std.specs.Prelude.{◌≡◌, ◌++◌, OnOk};
ghost use Rattle.ir_types.specs.Names.{name_text};
ghost use Rattle.ir_printer.specs.Text.{constant_text, global_text, local_text, variable_text};
ghost use Rattle.expression_text.specs.ExpressionText.{arg_text, typed_by};

use crate::words::width_text;
use expressions::Arg;
use growing_text::Text;
use ir_printer::{constant_to, name_to};
use ir_types::module::Module;
use ir_types::name::{Name, Spelling};
use ir_types::syntax::{Function, Variable};
use mc_num::{NoMemory, Width};

fn put_constant(text: &mut Text, width: Width, value: u64) -> Result<(), NoMemory>
    ensures { OnOk result (text.new.written ≡ text.old.written ++ constant_text width value) }
{
    match constant_to(width, value, text) {
        Ok(()) => Ok(()),
        Err(_) => Err(NoMemory),
    }
}

fn put_name(text: &mut Text, name: &Name<'_>) -> Result<(), NoMemory>
    ensures { OnOk result (text.new.written ≡ text.old.written ++ name_text name.now) }
{
    match name_to(name, text) {
        Ok(()) => Ok(()),
        Err(_) => Err(NoMemory),
    }
}

fn put_local(text: &mut Text, name: &Name<'_>) -> Result<(), NoMemory>
    ensures { OnOk result (text.new.written ≡ text.old.written ++ local_text name.now) }
{
    text.put(b"%")?;
    put_name(text, name)
}

/// Adds `@` and the name of a global or a function, as the canonical text spells it.
///
/// `NoMemory` where an allocation was refused; a first part of the name may then have been added.
pub fn put_global(text: &mut Text, name: &Spelling<'_>) -> Result<(), NoMemory>
    ensures { OnOk result (text.new.written ≡ text.old.written ++ global_text name.now) }
{
    text.put(b"@")?;
    put_name(text, &Name::Text(name.copied()))
}

fn put_variable(
    text: &mut Text,
    program: &Module<'_>,
    function: &Function<'_>,
    variable: Variable,
) -> Result<(), NoMemory>
    ensures { OnOk result (text.new.written ≡ text.old.written ++ variable_text program.now function.now variable) }
{
    match variable {
        Variable::Local(index) => match function.vars.get(index as usize) {
            Some((_, name)) => put_local(text, name),
            None => Ok(()),
        },
        Variable::Global(index) => match program.globals().get(index as usize) {
            Some(global) => put_global(text, &global.name),
            None => Ok(()),
        },
    }
}

/// A constant of this type, or the name of a parameter or a variable.
pub(crate) fn put_arg(
    text: &mut Text,
    program: &Module<'_>,
    function: &Function<'_>,
    width: Width,
    arg: Arg,
) -> Result<(), NoMemory>
    ensures { OnOk result (text.new.written ≡ text.old.written ++ arg_text program.now function.now width arg) }
{
    match arg {
        Arg::Const(value) => put_constant(text, width, value),
        Arg::Param(index) => match function.params.get(index as usize) {
            Some((_, name)) => put_local(text, name),
            None => Ok(()),
        },
        Arg::Var(variable) => put_variable(text, program, function, variable),
    }
}

/// A type and an operand of it.
pub(crate) fn put_typed(
    text: &mut Text,
    program: &Module<'_>,
    function: &Function<'_>,
    width: Width,
    arg: Arg,
) -> Result<(), NoMemory>
    ensures { OnOk result (text.new.written ≡ text.old.written ++ typed_by (arg_text program.now function.now) width arg) }
{
    text.put(width_text(width))?;
    text.put(b" ")?;
    put_arg(text, program, function, width, arg)
}
