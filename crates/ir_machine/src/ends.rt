//! Terminators.
ghost use Rattle.std.specs.Prelude.{◌≡◌, ◌<◌, [], length, IfOk, OnErr};
ghost use Rattle.ir_machine.specs.Step.{Globals, result_in, switched, takes, term_act};
ghost use Rattle.ir_machine.specs.Fits.{CanEnd};
ghost use Rattle.ir_machine.specs.Code.{ComesTo};
ghost use Rattle.ir_machine.specs.declared.frame.Frame.{Frame};
ghost use Rattle.ir_types.specs.Program.{Program};
ghost use Rattle.ir_types.specs.WellFormed.{item_limit};

use crate::calls::return_value;
use crate::frame::Frame;
use ir_types::syntax::{Operand, Terminator};
use machines::Event;
use mc_num::Trap;
use std::alloc::AllocError;

// Through a slot to the head of a block.
fn take_slot(slot: u32, target: u32, frame: &mut Frame) -> Event
    ensures frame { frame.new ≡ record frame.old { block = target; registers = [] } }
    ensures event { result ≡ Event.Took frame.old.function frame.old.block slot }
{
    let event = Event::Took(frame.function, frame.block, slot);
    frame.block = target;
    frame.registers.clear();
    event
}

// The slot that a switch takes at a value, and its block: those of the first case with the value, or else slot 0 with the block before the
// cases.
fn switch_way(value: u64, other: u32, cases: &[(u64, u32)]) -> (u32, u32)
    requires { length cases.now < item_limit }
    ensures { (globals : Globals) (frame : Frame) → switched value 1 other cases.now globals frame ≡ takes result.0 result.1 globals frame }
{
    for (i, case) in cases.iter().enumerate() {
        if case.0 == value {
            return (i as u32 + 1, case.1);
        }
    }
    (0, other)
}

fn result_in(frame: &Frame, operand: Option<Operand>) -> Option<u64>
    ensures { result ≡ result_in frame.now operand }
{
    match operand {
        None => None,
        Some(operand) => Some(frame.value_in(operand)),
    }
}

/// Runs a terminator.
pub fn end_block(
    term: &Terminator,
    top: &mut Frame,
    below: &mut Vec<Frame>,
) -> Result<Event, AllocError>
    requires { CanEnd term.now }
    ensures ok { IfOk result (λ event. (m : Program) (globals : Globals) → ComesTo m (term_act term.now globals top.old) top.old below.old.items globals event top.new below.new.items globals) }
    ensures err { OnErr result ((top.new ≡ top.old) × (below.new.items ≡ below.old.items)) }
{
    match term {
        Terminator::Return(operand) => {
            let value = result_in(top, *operand);
            return_value(value, top, below)
        }
        Terminator::Jump(target) => Ok(take_slot(0, *target, top)),
        Terminator::Branch(condition, then_block, else_block) => {
            if top.value_in(*condition) == 0 {
                Ok(take_slot(1, *else_block, top))
            } else {
                Ok(take_slot(0, *then_block, top))
            }
        }
        Terminator::Switch(_, value, other, cases) => {
            let (slot, target) = switch_way(top.value_in(*value), *other, cases.as_slice());
            Ok(take_slot(slot, target, top))
        }
        Terminator::Unreachable => Ok(Event::Trapped(Trap::Unreachable)),
    }
}
