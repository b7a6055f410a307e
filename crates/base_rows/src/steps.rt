//! A small module, run step by step.
ghost use Rattle.std.specs.Prelude.{◌≡◌, ◌∷◌, [], false, IfOk};
ghost use Rattle.ir_types.specs.WellFormed.{putchar};
ghost use Rattle.base_rows.specs.Small.{gives, kept, main, small};

use ir_machine::{Event, Machine};
use ir_types::items::Items;
use ir_types::module::Module;
use ir_types::name::{Name, Spelling};
use ir_types::syntax;
use ir_types::syntax::{Block, Function, Instr, Kind, Operand, Terminator, Variable};
use mc_num::{NoMemory, Width};
use std::alloc::{AllocError, Global};
use std::test::Fail;

fn gives(number: u32, kind: Kind) -> Instr<'static>
    ensures { result ≡ gives number kind }
{
    Instr {
        result: Some(Name::Number(number)),
        kind,
    }
}

/// `declare i32 @putchar(i32)`.
fn putchar(alloc: Global) -> Result<Function<'static>, AllocError>
    ensures { IfOk result (λ f. f ≡ putchar) }
{
    let mut params = Items::new(alloc);
    params.push((Width::I32, Name::Number(0)))?;
    Ok(Function {
        name: Spelling::new(b"putchar"),
        ret: Some(Width::I32),
        params,
        vars: Items::new(alloc),
        blocks: Items::new(alloc),
    })
}

/// A function that keeps its argument in a variable, and gives it back.
fn kept(alloc: Global) -> Result<Function<'static>, AllocError>
    ensures { IfOk result (λ f. f ≡ kept) }
{
    let mut params = Items::new(alloc);
    params.push((Width::I32, Name::Number(0)))?;
    let mut vars = Items::new(alloc);
    vars.push((Width::I32, Name::Number(2)))?;
    let mut instrs = Items::new(alloc);
    instrs.push(Instr {
        result: None,
        kind: Kind::Store(Operand::Param(0), Variable::Local(0)),
    })?;
    instrs.push(gives(3, Kind::Load(Variable::Local(0))))?;
    let mut blocks = Items::new(alloc);
    blocks.push(Block {
        name: Name::Number(1),
        instrs,
        term: Terminator::Return(Some(Operand::Reg(1))),
    })?;
    Ok(Function {
        name: Spelling::new(b"f"),
        ret: Some(Width::I32),
        params,
        vars,
        blocks,
    })
}

fn arguments(alloc: Global, register: u32) -> Result<Items<Operand>, AllocError>
    ensures { IfOk result (λ list. list ≡ Operand.Reg register ∷ []) }
{
    let mut operands = Items::new(alloc);
    operands.push(Operand::Reg(register))?;
    Ok(operands)
}

/// It passes the global to that function, and shows what it gives.
fn main(alloc: Global) -> Result<Function<'static>, AllocError>
    ensures { IfOk result (λ f. f ≡ main) }
{
    let mut instrs = Items::new(alloc);
    instrs.push(gives(1, Kind::Load(Variable::Global(0))))?;
    instrs.push(gives(2, Kind::Call(1, arguments(alloc, 0)?)))?;
    instrs.push(gives(3, Kind::Call(0, arguments(alloc, 1)?)))?;
    let mut blocks = Items::new(alloc);
    blocks.push(Block {
        name: Name::Number(0),
        instrs,
        term: Terminator::Return(Some(Operand::Reg(2))),
    })?;
    Ok(Function {
        name: Spelling::new(b"main"),
        ret: Some(Width::I32),
        params: Items::new(alloc),
        vars: Items::new(alloc),
        blocks,
    })
}

#[tactic(auto, using(crate::proofs::Small::small_is))]
fn module(alloc: Global) -> Result<Module<'static>, AllocError>
    ensures { IfOk result (λ m. m ≡ small) }
{
    let mut globals = Items::new(alloc);
    globals.push(syntax::Global {
        name: Spelling::new(b"g"),
        width: Width::I32,
        value: 321,
    })?;
    let mut functions = Items::new(alloc);
    functions.push(putchar(alloc)?)?;
    functions.push(kept(alloc)?)?;
    functions.push(main(alloc)?)?;
    Ok(Module::new(globals, functions))
}

/// The events of at most `most` steps; `getchar` meets the end of the input.
fn events(alloc: Global, machine: &mut Machine<'_, '_>, most: usize) -> Result<Vec<Event>, NoMemory>
    requires ready { machine.old.waits ≡ false }
    requires runs { machine.old.ended ≡ false }
{
    let mut events = Vec::new(alloc);
    for _ in 0..most {
        let event = machine.step(alloc)?;
        events.push(event)?;
        match event {
            Event::Wants => machine.give(None),
            Event::Returned(_) | Event::Trapped(_) => break,
            _ => {}
        }
    }
    Ok(events)
}

#[test]
fn a_letter_is_shown(rt: HostRuntime) -> Result<(), Fail> {
    let alloc = rt.alloc();
    let program = module(alloc)?;
    let mut machine = Machine::start(alloc, &program, 2)?;
    let events = events(alloc, &mut machine, 100)?;
    let expected = [
        Event::Went,
        Event::Entered(1),
        Event::Went,
        Event::Went,
        Event::Went,
        Event::Shows(65),
        Event::Returned(Some(65)),
    ];
    assert_eq!(rt; events.as_slice(), expected.as_slice());
    Ok(())
}
