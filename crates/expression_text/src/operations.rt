//! Operations over operands of expressions.
ghost use Rattle.std.specs.Prelude.{◌≡◌, ◌++◌, OnOk};
ghost use Rattle.expression_text.specs.ExpressionText.{arg_text, cast_by, choices_by, expr_text, pair_by};

use crate::args::{put_arg, put_typed};
use crate::words::{bin_text, cast_text, pred_text, width_text};
use expressions::{Arg, Expr};
use growing_text::Text;
use ir_types::module::Module;
use ir_types::syntax::Function;
use mc_num::{NoMemory, Op, Width};

fn put_pair(
    text: &mut Text,
    program: &Module<'_>,
    function: &Function<'_>,
    width: Width,
    args: &[Arg],
) -> Result<(), NoMemory>
    ensures { OnOk result (text.new.written ≡ text.old.written ++ pair_by (arg_text program.now function.now) width args.now) }
{
    match args {
        [one, other] => {
            put_typed(text, program, function, width, *one)?;
            text.put(b", ")?;
            put_arg(text, program, function, width, *other)
        }
        _ => Ok(()),
    }
}

fn put_cast(
    text: &mut Text,
    program: &Module<'_>,
    function: &Function<'_>,
    from: Width,
    to: Width,
    args: &[Arg],
) -> Result<(), NoMemory>
    ensures { OnOk result (text.new.written ≡ text.old.written ++ cast_by (arg_text program.now function.now) from to args.now) }
{
    match args {
        [one] => {
            put_typed(text, program, function, from, *one)?;
            text.put(b" to ")?;
            text.put(width_text(to))
        }
        _ => Ok(()),
    }
}

fn put_choices(
    text: &mut Text,
    program: &Module<'_>,
    function: &Function<'_>,
    width: Width,
    args: &[Arg],
) -> Result<(), NoMemory>
    ensures { OnOk result (text.new.written ≡ text.old.written ++ choices_by (arg_text program.now function.now) width args.now) }
{
    match args {
        [test, one, other] => {
            put_typed(text, program, function, Width::I1, *test)?;
            text.put(b", ")?;
            put_typed(text, program, function, width, *one)?;
            text.put(b", ")?;
            put_typed(text, program, function, width, *other)
        }
        _ => Ok(()),
    }
}

/// Adds an expression of the function, as `add i32 %a, 1`: the operation as in the canonical text, with the names of
/// variables and of parameters as operands.
///
/// `NoMemory` where an allocation was refused; a first part of the expression may then have been added.
pub fn put_expression(
    text: &mut Text,
    program: &Module<'_>,
    function: &Function<'_>,
    expr: &Expr,
) -> Result<(), NoMemory>
    ensures { OnOk result (text.new.written ≡ text.old.written ++ expr_text program.now function.now expr.now) }
{
    let args = expr.args.as_slice();
    match expr.op {
        Op::Bin(bin, width) => {
            text.put(bin_text(bin))?;
            text.put(b" ")?;
            put_pair(text, program, function, width, args)
        }
        Op::Icmp(pred, width) => {
            text.put(b"icmp ")?;
            text.put(pred_text(pred))?;
            text.put(b" ")?;
            put_pair(text, program, function, width, args)
        }
        Op::Cast(cast, from, to) => {
            text.put(cast_text(cast))?;
            text.put(b" ")?;
            put_cast(text, program, function, from, to, args)
        }
        Op::Select(width) => {
            text.put(b"select ")?;
            put_choices(text, program, function, width, args)
        }
    }
}
