//! Bounded runs.
ghost use Rattle.std.specs.Prelude.{◌≡◌, ◌^◌, ◌<◌, Some, true, IsTrue};
ghost use Rattle.ir_types.specs.declared.syntax.Function.{Function};
ghost use Rattle.ir_types.specs.WellFormed.{IsWellFormed};
ghost use Rattle.interp.specs.Main.{main_of};
ghost use Rattle.interp.specs.Follows.{Follows, ended_by};
ghost use Rattle.interp.specs.Run.{Ran};

use crate::ends::{RunEnd, Stop};
use crate::starts::main_of;
use crate::tally::Tally;
use ir_machine::Machine;
use ir_types::module::Module;
use machines::Event;
use mc_host::{Sink, Source};
use mc_num::NoMemory;
use std::alloc::Global;

// Takes or puts the byte that an event asks for; what stops the run, if anything does.
fn follow<I: Source, O: Sink>(
    event: Event,
    machine: &mut Machine<'_, '_>,
    input: &mut I,
    out: &mut O,
) -> Option<Stop>
    requires { event ≡ Event.Wants → machine.old.waits ≡ true }
    ensures { Follows event result machine.old machine.new (I.state input.old) (I.state input.new) (O.state out.old) (O.state out.new) }
{
    match event {
        Event::Wants => match input.next() {
            Ok(byte) => {
                machine.give(byte);
                None
            }
            Err(_) => Some(Stop::ReadFault),
        },
        Event::Shows(byte) => match out.put(&[byte]) {
            Ok(()) => None,
            Err(_) => Some(Stop::WriteFault),
        },
        Event::Returned(value) => Some(Stop::Returned(value)),
        Event::Trapped(trap) => Some(Stop::Trapped(trap)),
        Event::Went => None,
        Event::Took(_, _, _) => None,
        Event::Entered(_) => None,
    }
}

fn ended(stop: Stop, tally: Tally) -> RunEnd
    ensures { result ≡ ended_by stop tally.counts.items }
{
    match stop {
        Stop::Returned(value) => RunEnd::Returned(value, tally.into_profile()),
        Stop::Trapped(trap) => RunEnd::Trapped(trap),
        Stop::ReadFault => RunEnd::ReadFault,
        Stop::WriteFault => RunEnd::WriteFault,
    }
}

// Runs the function of this number.
fn run_main<I: Source, O: Sink>(
    alloc: Global,
    program: &Module<'_>,
    main: u32,
    limit: u64,
    input: &mut I,
    out: &mut O,
) -> Result<RunEnd, NoMemory>
    requires rules { IsWellFormed program.now }
    requires main { (f : Function) × (main_of program.now ≡ Some (main, f)) }
    requires limited { limit < 2 ^ 62 }
    ensures { Ran program.now limit (I.state input.old) (I.state input.new) (O.state out.old) (O.state out.new) result }
{
    let mut machine = Machine::start(alloc, program, main)?;
    let mut tally = Tally::new(alloc, program, main)?;
    for _ in 0..limit {
        let event = machine.step(alloc)?;
        tally.add(event);
        if let Some(stop) = follow(event, &mut machine, input, out) {
            return Ok(ended(stop, tally));
        }
    }
    Ok(RunEnd::StepLimit)
}

/// Runs the module's `main` for at most `limit` steps, which is below 2^62, with the bytes of `input` for `getchar`. Each byte that
/// `putchar` shows is put on `out` as it is shown.
///
/// Where the source tells its bytes, the answer is that of the run with them. A fault of `input` or `out` comes before any end. `NoMemory`
/// where an allocation was refused; what was taken and put is then that of the steps so far.
pub fn run<I: Source, O: Sink>(
    alloc: Global,
    program: &Module<'_>,
    limit: u64,
    input: &mut I,
    out: &mut O,
) -> Result<RunEnd, NoMemory>
    requires { limit < 2 ^ 62 }
    ensures { Ran program.now limit (I.state input.old) (I.state input.new) (O.state out.old) (O.state out.new) result }
{
    match main_of(program) {
        Some(main) => run_main(alloc, program, main, limit, input, out),
        None => Ok(RunEnd::NoMain),
    }
}
