//! What a point is to an expression.
ghost use Rattle.std.specs.Prelude.{◌≡◌, ◌<◌, Some, length, slice_get};
ghost use Rattle.std.specs.List.{list_any};
ghost use Rattle.std.specs.Option.{option_copied};
ghost use Rattle.mc_num.specs.Op.{IsWellFormedOp};
ghost use Rattle.mc_num.specs.Value.{DivisorFits, traps_at};
ghost use Rattle.ir_types.specs.WellFormed.{IsFunctionIn};
ghost use Rattle.expressions.specs.Expressions.{constant_operand, content, instr_at};
ghost use Rattle.expressions.specs.Events.{changes_arg, changes_some, content_bars, kind_bars, other_event, term_bars};
ghost use Rattle.expressions.specs.Tables.{IsEventOf, IsTable};
ghost use Rattle.expressions.specs.Walking.{IsSoundKind};

use crate::changes::may_change;
use crate::syntax::{Arg, Event};
use crate::tables::Table;
use ir_types::module::Module;
use ir_types::syntax::{Function, Instr, Kind, Operand, Terminator};
use mc_num::{Op, can_trap};
use point_graph::{Point, Points};

/// Whether an instruction may change an operand.
fn changes_arg(module: &Module<'_>, kind: &Kind, arg: Arg) -> bool
    ensures { result ≡ changes_arg «module».now kind.now arg }
{
    match arg {
        Arg::Var(variable) => may_change(module, variable, kind),
        Arg::Const(_) | Arg::Param(_) => false,
    }
}

/// Whether an instruction may change one of the operands, of which there are at most three.
fn changes_some(module: &Module<'_>, kind: &Kind, args: &[Arg]) -> bool
    ensures { result ≡ list_any (changes_arg «module».now kind.now) args.now }
{
    args.iter().any(|arg| changes_arg(module, kind, *arg))
}

/// The value of an operand, where it is a constant.
fn constant(operand: Option<&Operand>) -> Option<u64>
    ensures { result ≡ constant_operand (option_copied operand.entry) }
{
    match operand {
        Some(Operand::Const(value)) => Some(*value),
        _ => None,
    }
}

fn operation_traps(op: Op, operands: &[Operand]) -> bool
    requires formed { IsWellFormedOp op }
    requires fits { DivisorFits op (constant_operand (slice_get operands.now 1)) }
    ensures { result ≡ traps_at op (constant_operand (slice_get operands.now 1)) }
{
    can_trap(op, constant(operands.get(1)))
}

/// Whether an instruction is a call or an operation that can trap.
fn kind_bars(kind: &Kind) -> bool
    requires { IsSoundKind kind.now }
    ensures { result ≡ kind_bars kind.now }
{
    match kind {
        Kind::Compute(op, operands) => operation_traps(*op, operands.as_slice()),
        Kind::Call(..) => true,
        Kind::Load(_) | Kind::Store(..) => false,
    }
}

/// Whether a terminator is a return or `unreachable`.
fn term_bars(term: &Terminator) -> bool
    ensures { result ≡ term_bars term.now }
{
    matches!(term, Terminator::Return(_) | Terminator::Unreachable)
}

fn event_of(kills: bool, bars: bool) -> Event
    ensures { result ≡ other_event kills bars }
{
    if kills {
        Event::Kills
    } else if bars {
        Event::Bars
    } else {
        Event::Passes
    }
}

/// An instruction of a function, if there is one of these numbers.
fn instr_at<'f, 'a>(function: &'f Function<'a>, block: u32, instr: u32) -> Option<&'f Instr<'a>>
    ensures { option_copied result ≡ instr_at function.now block instr }
{
    match function.blocks.get(block as usize) {
        Some(block) => block.instrs.get(instr as usize),
        None => None,
    }
}

/// What a point is to an expression with these operands that doesn't occur there.
fn other_event(module: &Module<'_>, function: &Function<'_>, point: Point, args: &[Arg]) -> Event
    requires { IsFunctionIn «module».now function.now }
    ensures { result ≡ other_event (changes_some «module».now args.now (content function.now point)) (content_bars (content function.now point)) }
{
    match point {
        Point::Start | Point::Head(_) => Event::Passes,
        Point::Instr(block, instr) => match instr_at(function, block, instr) {
            Some(instr) => event_of(
                changes_some(module, &instr.kind, args),
                kind_bars(&instr.kind),
            ),
            None => Event::Passes,
        },
        Point::Term(block) => match function.blocks.get(block as usize) {
            Some(block) => event_of(false, term_bars(&block.term)),
            None => Event::Passes,
        },
    }
}

fn point_at(points: &Points, point: u32) -> Point
    requires { point < length points.now.points }
    ensures { slice_get points.now.points point ≡ Some result }
{
    points.points.as_slice()[point as usize]
}

/// What a point is to an expression of the table, both by their numbers. It takes constant time, and no memory.
pub fn event(
    function: &Function<'_>,
    points: &Points,
    table: &Table<'_, '_>,
    e: u32,
    point: u32,
) -> Event
    requires table { IsTable function.now points.now table.now }
    requires expression { e < length table.now.exprs }
    requires point { point < length points.now.points }
    ensures { IsEventOf function.now points.now table.now e point result }
{
    if table.occurs(e, point as usize) {
        return Event::Occurs;
    }
    let args = table.expr(e).args.as_slice();
    other_event(table.module(), function, point_at(points, point), args)
}
