//! Calls and returns.
ghost use Rattle.std.specs.Prelude.{◌≡◌, [], ◌∷◌, ◌++◌, List, slice_get, IfOk, OnOk, OnErr};
ghost use Rattle.machines.specs.Acts.{Returns};
ghost use Rattle.ir_machine.specs.Step.{Globals, first_frame, called, external_act, is_putchar};
ghost use Rattle.ir_machine.specs.Code.{ComesTo};
ghost use Rattle.ir_machine.specs.declared.frame.Frame.{Frame};
ghost use Rattle.ir_types.specs.Program.{Program};

use crate::frame::Frame;
use crate::values::Values;
use ir_types::module::Module;
use ir_types::syntax::Function;
use machines::Event;
use mc_num::Trap;
use std::alloc::{AllocError, Global};
use std::mem;

/// The first frame of a function with these arguments: at its entry block, with every variable 0. `AllocError` where an allocation was
/// refused.
pub fn first_frame(
    alloc: Global,
    index: u32,
    function: &Function<'_>,
    arguments: Values,
) -> Result<Frame, AllocError>
    ensures { IfOk result (λ frame. frame ≡ first_frame index function.now arguments) }
{
    Ok(Frame {
        function: index,
        block: 0,
        arguments,
        registers: Values::new(alloc),
        variables: Values::zeros(alloc, function.vars.len())?,
    })
}

/// A return to the nearest frame that waits, or out of the last frame.
pub fn return_value(
    value: Option<u64>,
    top: &mut Frame,
    below: &mut Vec<Frame>,
) -> Result<Event, AllocError>
    ensures ok { IfOk result (λ event. (m : Program) (globals : Globals) → ComesTo m (Returns value) top.old below.old.items globals event top.new below.new.items globals) }
    ensures err { OnErr result ((top.new ≡ top.old) × (below.new.items ≡ below.old.items)) }
{
    if below.is_empty() {
        return Ok(Event::Returned(value));
    }
    let last = below.len() - 1;
    below[last].pass(value.unwrap_or(0))?;
    if let Some(caller) = below.pop() {
        *top = caller;
    }
    Ok(Event::Went)
}

// The first frame of a call runs, and the frame that called waits.
fn enter(first: Frame, top: &mut Frame, below: &mut Vec<Frame>) -> Result<(), AllocError>
    ensures ok { OnOk result ((top.new ≡ first) × (below.new.items ≡ below.old.items ++ top.old ∷ [])) }
    ensures err { OnErr result ((top.new ≡ top.old) × (below.new.items ≡ below.old.items)) }
{
    below.push(first)?;
    let last = below.len() - 1;
    mem::swap(top, &mut below[last]);
    Ok(())
}

fn is_putchar(function: &Function<'_>) -> bool
    ensures { result ≡ is_putchar function.now }
{
    function.name.bytes() == b"putchar".as_slice()
}

// putchar shows its argument modulo 256 and gives that, and getchar waits for a byte.
fn call_external(
    function: &Function<'_>,
    arguments: &Values,
    top: &mut Frame,
) -> Result<Event, AllocError>
    ensures ok { IfOk result (λ event. (m : Program) (below : List Frame) (globals : Globals) → ComesTo m (external_act (is_putchar function.now) arguments.now top.old) top.old below globals event top.new below globals) }
    ensures err { OnErr result (top.new ≡ top.old) }
{
    if is_putchar(function) {
        let byte = (arguments.get(0) % 256) as u8;
        top.pass(u64::from(byte))?;
        Ok(Event::Shows(byte))
    } else {
        Ok(Event::Wants)
    }
}

/// A call of a function, which runs next, or of getchar or putchar.
pub fn call(
    alloc: Global,
    program: &Module<'_>,
    index: u32,
    arguments: Values,
    top: &mut Frame,
    below: &mut Vec<Frame>,
) -> Result<Event, AllocError>
    ensures ok { IfOk result (λ event. (globals : Globals) → ComesTo program.now (called (slice_get program.now.functions index) index arguments top.old) top.old below.old.items globals event top.new below.new.items globals) }
    ensures err { OnErr result ((top.new ≡ top.old) × (below.new.items ≡ below.old.items)) }
{
    let Some(function) = program.functions().get(index as usize) else {
        return Ok(Event::Trapped(Trap::Unreachable));
    };
    if function.blocks.as_slice().is_empty() {
        call_external(function, &arguments, top)
    } else {
        let first = first_frame(alloc, index, function, arguments)?;
        enter(first, top, below)?;
        Ok(Event::Entered(index))
    }
}
