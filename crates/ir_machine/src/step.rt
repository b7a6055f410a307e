//! What the running frame does next.
ghost use Rattle.std.specs.Prelude.{◌≡◌, map, IfOk, OnOk, OnErr, option_copied};
ghost use Rattle.mc_num.specs.Op.{IsWellFormedOp, argument_widths};
ghost use Rattle.mc_num.specs.Value.{HaveWidths, value_of};
ghost use Rattle.ir_machine.specs.Step.{Globals, value_in, variable_in, frame_with, globals_with, past, instr_act, block_at, frames_of};
ghost use Rattle.ir_machine.specs.Fits.{CanRun, RunningFits};
ghost use Rattle.ir_machine.specs.Code.{ComesTo, running_of};
ghost use Rattle.ir_types.specs.WellFormed.{IsWellFormed};

use crate::calls::call;
use crate::ends::end_block;
use crate::frame::Frame;
use crate::values::Values;
use ir_types::module::Module;
use ir_types::syntax::{Block, Kind, Operand, Variable};
use machines::Event;
use mc_num::{Op, Trap, eval};
use std::alloc::{AllocError, Global};

fn load(variable: Variable, globals: &Values, frame: &Frame) -> u64
    ensures { result ≡ variable_in globals.now frame.now variable }
{
    match variable {
        Variable::Local(place) => frame.variables.get(place),
        Variable::Global(place) => globals.get(place),
    }
}

// The frame goes past a store of this value.
fn store(
    variable: Variable,
    value: u64,
    globals: &mut Values,
    frame: &mut Frame,
) -> Result<(), AllocError>
    ensures ok { OnOk result ((frame.new ≡ past (frame_with variable value frame.old) 0) × (globals.new ≡ globals_with variable value globals.old)) }
    ensures err { OnErr result ((frame.new ≡ frame.old) × (globals.new ≡ globals.old)) }
{
    frame.pass(0)?;
    match variable {
        Variable::Local(place) => frame.variables.set(place, value),
        Variable::Global(place) => globals.set(place, value),
    }
    Ok(())
}

fn compute(op: Op, operands: &[Operand], frame: &Frame) -> Result<u64, Trap>
    requires formed { IsWellFormedOp op }
    requires fit { HaveWidths (argument_widths op) (map (value_in frame.now) operands.now) }
    ensures { result ≡ value_of op (map (value_in frame.now) operands.now) }
{
    match operands {
        [a] => eval(op, &[frame.value_in(*a)]),
        [a, b] => eval(op, &[frame.value_in(*a), frame.value_in(*b)]),
        [a, b, c] => eval(
            op,
            &[frame.value_in(*a), frame.value_in(*b), frame.value_in(*c)],
        ),
        _ => Err(Trap::Unreachable),
    }
}

// Runs an instruction.
fn run_instr(
    alloc: Global,
    program: &Module<'_>,
    kind: &Kind,
    globals: &mut Values,
    top: &mut Frame,
    below: &mut Vec<Frame>,
) -> Result<Event, AllocError>
    requires { CanRun top.old kind.now }
    ensures ok { IfOk result (λ event. ComesTo program.now (instr_act program.now kind.now globals.old top.old) top.old below.old.items globals.old event top.new below.new.items globals.new) }
    ensures err { OnErr result ((top.new ≡ top.old) × (below.new.items ≡ below.old.items) × (globals.new ≡ globals.old)) }
{
    match kind {
        Kind::Load(variable) => {
            let value = load(*variable, globals, top);
            top.pass(value)?;
            Ok(Event::Went)
        }
        Kind::Store(operand, variable) => {
            let value = top.value_in(*operand);
            store(*variable, value, globals, top)?;
            Ok(Event::Went)
        }
        Kind::Compute(op, operands) => match compute(*op, operands.as_slice(), top) {
            Ok(value) => {
                top.pass(value)?;
                Ok(Event::Went)
            }
            Err(trap) => Ok(Event::Trapped(trap)),
        },
        Kind::Call(index, operands) => {
            let arguments = top.values_in(alloc, operands.as_slice())?;
            call(alloc, program, *index, arguments, top, below)
        }
    }
}

fn block_at<'m, 'a>(program: &'m Module<'a>, function: u32, block: u32) -> Option<&'m Block<'a>>
    ensures { option_copied result ≡ block_at program.now function block }
{
    let function = program.functions().get(function as usize)?;
    function.blocks.get(block as usize)
}

/// One step of the running frame: an instruction or a terminator.
pub fn run_step(
    alloc: Global,
    program: &Module<'_>,
    globals: &mut Values,
    top: &mut Frame,
    below: &mut Vec<Frame>,
) -> Result<Event, AllocError>
    requires rules { IsWellFormed program.now }
    requires numbers { RunningFits program.now (running_of top.old below.old.items globals.old) }
    ensures ok { IfOk result (λ event. ComesTo program.now ((frames_of program.now).act globals.old top.old) top.old below.old.items globals.old event top.new below.new.items globals.new) }
    ensures err { OnErr result ((top.new ≡ top.old) × (below.new.items ≡ below.old.items) × (globals.new ≡ globals.old)) }
{
    let Some(block) = block_at(program, top.function, top.block) else {
        return Ok(Event::Trapped(Trap::Unreachable));
    };
    match block.instrs.get(top.registers.len()) {
        Some(instr) => run_instr(alloc, program, &instr.kind, globals, top, below),
        None => end_block(&block.term, top, below),
    }
}
