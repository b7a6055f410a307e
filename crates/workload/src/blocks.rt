//! The blocks of a round.
ghost use Rattle.std.specs.Prelude.{◌≡◌, ◌<◌, ◌++◌, ◌∷◌, [], Some, IfOk, OnOk};
ghost use Rattle.ir_types.specs.declared.name.Name.TheVariants.{Text};
ghost use Rattle.workload.specs.Workload.{load, store, add, test, entry, start, left, right, join, round_blocks, end};
ghost use Rattle.workload.specs.Names.{round_names};

use crate::naming::RoundNames;
use ir_types::items::Items;
use ir_types::name::{Name, Spelling};
use ir_types::operands::Operands;
use ir_types::syntax::{Block, Instr, Kind, Operand, Terminator, Variable};
use mc_num::{Bin, NoMemory, Op, Pred, Width};
use std::alloc::Global;

/// The variable that each round reads.
const READ: Variable = Variable::Local(0);

/// The variable that is only written.
const WRITTEN: Variable = Variable::Local(1);

fn text(bytes: &[u8]) -> Name<'_>
    ensures { result ≡ Text bytes.now }
{
    Name::Text(Spelling::new(bytes))
}

fn load(name: &Items<u8>) -> Instr<'_>
    ensures { result ≡ load name.now }
{
    Instr {
        result: Some(text(name.as_slice())),
        kind: Kind::Load(READ),
    }
}

fn store<'a>(value: Operand, variable: Variable) -> Instr<'a>
    ensures { result ≡ store value variable }
{
    Instr {
        result: None,
        kind: Kind::Store(value, variable),
    }
}

fn operands(alloc: Global, first: Operand, second: Operand) -> Result<Operands, NoMemory>
    ensures { IfOk result (λ operands. operands ≡ first ∷ second ∷ []) }
{
    let mut operands = Operands::new(alloc);
    operands.push(first)?;
    operands.push(second)?;
    Ok(operands)
}

fn add(alloc: Global, name: &Items<u8>, round: u32) -> Result<Instr<'_>, NoMemory>
    ensures { IfOk result (λ instr. instr ≡ add name.now round) }
{
    let step = Operand::Const(u64::from(round % 7));
    let operands = operands(alloc, Operand::Reg(0), step)?;
    Ok(Instr {
        result: Some(text(name.as_slice())),
        kind: Kind::Compute(Op::Bin(Bin::Add, Width::I32), operands),
    })
}

fn test(alloc: Global, name: &Items<u8>) -> Result<Instr<'_>, NoMemory>
    ensures { IfOk result (λ instr. instr ≡ test name.now) }
{
    let operands = operands(alloc, Operand::Reg(0), Operand::Const(0))?;
    Ok(Instr {
        result: Some(text(name.as_slice())),
        kind: Kind::Compute(Op::Icmp(Pred::Slt, Width::I32), operands),
    })
}

/// The first block.
pub(crate) fn entry<'a>(alloc: Global) -> Result<Block<'a>, NoMemory>
    ensures { IfOk result (λ block. block ≡ entry) }
{
    let instrs = vec![in alloc; store(Operand::Const(0), READ)]?;
    Ok(Block {
        name: text(b"entry"),
        instrs: Items::from(instrs),
        term: Terminator::Jump(1),
    })
}

/// The block where a round starts.
fn start(alloc: Global, names: &RoundNames, round: u32) -> Result<Block<'_>, NoMemory>
    requires few { round < 10000 }
    requires names { names.now ≡ round_names round }
    ensures { IfOk result (λ block. block ≡ start round) }
{
    let test = test(alloc, &names.start_test)?;
    let instrs = vec![in alloc; load(&names.start_value), test]?;
    Ok(Block {
        name: text(names.start.as_slice()),
        instrs: Items::from(instrs),
        term: Terminator::Branch(Operand::Reg(1), 4 * round + 2, 4 * round + 3),
    })
}

/// A block that adds to what it reads, and stores the sum.
fn adding<'a>(
    alloc: Global,
    name: &'a Items<u8>,
    value: &'a Items<u8>,
    sum: &'a Items<u8>,
    round: u32,
    variable: Variable,
    next: u32,
) -> Result<Block<'a>, NoMemory>
    ensures { IfOk result (λ block. block ≡ record {
      name = Text name.now;
      instrs = load value.now ∷ add sum.now round ∷ store (Operand.Reg 1) variable ∷ [];
      term = Terminator.Jump next;
    }) }
{
    let add = add(alloc, sum, round)?;
    let instrs = vec![in alloc; load(value), add, store(Operand::Reg(1), variable)]?;
    Ok(Block {
        name: text(name.as_slice()),
        instrs: Items::from(instrs),
        term: Terminator::Jump(next),
    })
}

/// The block to the left.
fn left(alloc: Global, names: &RoundNames, round: u32) -> Result<Block<'_>, NoMemory>
    requires few { round < 10000 }
    requires names { names.now ≡ round_names round }
    ensures { IfOk result (λ block. block ≡ left round) }
{
    adding(
        alloc,
        &names.left,
        &names.left_value,
        &names.left_sum,
        round,
        WRITTEN,
        4 * round + 4,
    )
}

/// The block to the right.
fn right(alloc: Global, names: &RoundNames, round: u32) -> Block<'_>
    requires few { round < 10000 }
    requires names { names.now ≡ round_names round }
    ensures { result ≡ right round }
{
    Block {
        name: text(names.right.as_slice()),
        instrs: Items::new(alloc),
        term: Terminator::Jump(4 * round + 4),
    }
}

/// The block where both join, which goes on to what stands behind the round.
fn join(alloc: Global, names: &RoundNames, round: u32) -> Result<Block<'_>, NoMemory>
    requires few { round < 10000 }
    requires names { names.now ≡ round_names round }
    ensures { IfOk result (λ block. block ≡ join round) }
{
    adding(
        alloc,
        &names.join,
        &names.join_value,
        &names.join_sum,
        round,
        READ,
        4 * round + 5,
    )
}

/// Adds the blocks of a round at the end.
pub(crate) fn push_round<'a>(
    alloc: Global,
    blocks: &mut Vec<Block<'a>>,
    names: &'a RoundNames,
    round: u32,
) -> Result<(), NoMemory>
    requires few { round < 10000 }
    requires names { names.now ≡ round_names round }
    ensures { OnOk result (blocks.new.items ≡ blocks.old.items ++ round_blocks round) }
{
    blocks.push(start(alloc, names, round)?)?;
    blocks.push(left(alloc, names, round)?)?;
    blocks.push(right(alloc, names, round))?;
    blocks.push(join(alloc, names, round)?)?;
    Ok(())
}

/// The last block.
pub(crate) fn end<'a>(alloc: Global) -> Block<'a>
    ensures { result ≡ end }
{
    Block {
        name: text(b"end"),
        instrs: Items::new(alloc),
        term: Terminator::Return(Some(Operand::Const(0))),
    }
}
