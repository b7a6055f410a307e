//! A module that runs, a step at a time.
ghost use Rattle.std.specs.Prelude.{◌≡◌, false, true, Some, slice_get, map, IfOk, OnOk, OnErr};
ghost use Rattle.machines.specs.Acts.{got};
ghost use Rattle.ir_machine.specs.Step.{frames_of, written};
ghost use Rattle.ir_machine.specs.Code.{CanStart, started, after_step, event_of, byte_value};
ghost use Rattle.ir_types.specs.declared.syntax.Function.{Function};

use crate::calls::first_frame;
use crate::frame::Frame;
use crate::step::run_step;
use crate::values::Values;
use ir_types::module::Module;
use ir_types::syntax;
use machines::Event;
use mc_num::NoMemory;
use std::alloc::{AllocError, Global};
use std::marker::Model;

// What getchar gives: the byte, or -1 at the end of the input.
fn value_of_byte(byte: Option<u8>) -> u64
    ensures { result ≡ byte_value byte }
{
    match byte {
        Some(byte) => u64::from(byte),
        None => 0xffff_ffff,
    }
}

fn written(alloc: Global, globals: &[syntax::Global<'_>]) -> Result<Values, AllocError>
    ensures { IfOk result (λ values. values ≡ map (λ g. g.value) globals.now) }
{
    let mut values = Values::new(alloc);
    for global in globals {
        values.push(global.value)?;
    }
    Ok(values)
}

/// A module that runs, a step at a time. Contracts see the module, what runs, whether the machine waits for a byte, and whether it has
/// ended.
#[derive(Drop)]
pub struct Machine<'m, 'a> {
    program: &'m Module<'a>,
    globals: Values,
    top: Frame,
    below: Vec<Frame>,
    waits: bool,
    ended: bool,
}

impl<'m, 'a> Model for Machine<'m, 'a> {
    ghost use Rattle.ir_machine.specs.Code.{MachineState, running_of, seen, IsMachine};

    ghost Value = { MachineState };

    ghost view = { λ s. record { program = s.program.now; running = running_of (seen s.waits s.top) s.below.items s.globals; waits = s.waits; ended = s.ended } };

    ghost invariant = { λ s. IsMachine s.program.now s.waits s.top s.below.items s.globals };
}

impl<'m, 'a> Machine<'m, 'a> {
    /// The machine at the entry of a function: every local variable is 0, and every global has its written value. `main` is the number of
    /// the function, counted from 0.
    pub fn start(
        alloc: Global,
        program: &'m Module<'a>,
        main: u32,
    ) -> Result<Machine<'m, 'a>, NoMemory>
        requires { CanStart program.now main }
        ensures { IfOk result (λ s. (f : Function) × (slice_get program.now.functions main ≡ Some f) × (s ≡ started program.now main f)) }
    {
        let function = &program.functions()[main as usize];
        let top = first_frame(alloc, main, function, Values::new(alloc))?;
        let globals = written(alloc, program.globals())?;
        Ok(Machine {
            program,
            globals,
            top,
            below: Vec::new(alloc),
            waits: false,
            ended: false,
        })
    }

    /// Makes one step, and tells what it came to. After `Wants` the machine waits for `give`, and both together are one step. After
    /// `Returned` and `Trapped` it has ended. Without memory the machine is unchanged.
    pub fn step(&mut self, alloc: Global) -> Result<Event, NoMemory>
        requires ready { self.old.waits ≡ false }
        requires runs { self.old.ended ≡ false }
        ensures event { IfOk result (λ event. event ≡ event_of self.old) }
        ensures state { OnOk result (self.new ≡ after_step self.old) }
        ensures unchanged { OnErr result (self.new ≡ self.old) }
    {
        let event = run_step(
            alloc,
            self.program,
            &mut self.globals,
            &mut self.top,
            &mut self.below,
        )?;
        match event {
            Event::Wants => {
                self.top.registers.push(0)?;
                self.waits = true;
            }
            Event::Returned(_) | Event::Trapped(_) => self.ended = true,
            _ => {}
        }
        Ok(event)
    }

    /// Gives the `getchar` that waits a byte, or -1 at the end of the input. No memory.
    pub fn give(&mut self, byte: Option<u8>)
        requires { self.old.waits ≡ true }
        ensures { self.new ≡ record self.old { running = got (frames_of self.old.program) self.old.running (byte_value byte); waits = false } }
    {
        self.top.registers.set_last(value_of_byte(byte));
        self.waits = false;
    }
}
