//! The new text of a block.
ghost use Rattle.std.specs.Prelude.{◌≡◌, ◌++◌, ◌<◌, ◌≤◌, ℕ, IfOk, OnOk, Some, length, slice_get};
ghost use Rattle.ir_types.specs.WellFormed.{IsFunctionIn};
ghost use Rattle.ir_types.specs.declared.syntax.Instr.{Instr};
ghost use Rattle.ir_types.specs.declared.syntax.Block.{Block};
ghost use Rattle.point_graph.specs.Graph.{Slot};
ghost use Rattle.applied.specs.Applied.{Plan, entering, is_single, leaving};
ghost use Rattle.changes.specs.Changed.{AreChanges, HasPlan};
ghost use Rattle.block_text.specs.ByChanges.{AreBelow, IsText, along, before, given};
ghost use Rattle.block_text.specs.Texts.{IsGroups, IsNewText};

use crate::copies::{acted, push_store};
use crate::grouping::{push_entry, push_inside, push_slot, text_number};
use crate::source::Source;
use changes::Changes;
use expressions::Table;
use ir_types::items::Items;
use ir_types::syntax::{Block, Function, Instr, Terminator};
use mc_num::NoMemory;
use point_graph::block_at;
use std::alloc::Global;

/// The new instructions of a block, and for each of its old ones the number of the new one that stands for it.
#[derive(Drop)]
pub struct NewText<'a> {
    pub instrs: Items<Instr<'a>>,
    pub numbers: Items<u32>,
}

/// What the texts of a function's blocks are made from.
fn source<'t, 'm, 'a>(
    alloc: Global,
    function: &Function<'_>,
    table: &'t Table<'m, 'a>,
    changes: &'t Changes,
) -> Source<'t, 'm, 'a>
    requires { HasPlan function.now table.now.exprs changes.now }
    ensures { result ≡ given function.now table.now.exprs changes.now }
{
    Source {
        alloc,
        table,
        changes,
        vars: function.vars.len() as u32,
    }
}

/// Whether the terminator has one slot.
fn is_single(term: &Terminator) -> bool
    ensures { result ≡ is_single term.now }
{
    match term {
        Terminator::Jump(_) => true,
        Terminator::Switch(_, _, _, cases) => cases.as_slice().is_empty(),
        Terminator::Return(_) | Terminator::Branch(..) | Terminator::Unreachable => false,
    }
}

/// Adds the groups of the edge from Start, before the place 0 of the entry block.
fn push_entering(
    source: &Source<'_, '_, '_>,
    instrs: &mut Vec<Instr<'_>>,
    number: u32,
    place: usize,
) -> Result<(), NoMemory>
    ensures { OnOk result (instrs.new.items ≡ instrs.old.items ++ along source.now (length instrs.old.items) (entering place number)) }
{
    if number == 0 && place == 0 {
        push_entry(source, instrs)
    } else {
        Ok(())
    }
}

/// Adds the groups of the slot of a block with one slot, before its terminator.
fn push_leaving(
    source: &Source<'_, '_, '_>,
    instrs: &mut Vec<Instr<'_>>,
    number: u32,
    block: &Block<'_>,
    place: usize,
) -> Result<(), NoMemory>
    requires { place ≤ length block.now.instrs }
    ensures { OnOk result (instrs.new.items ≡ instrs.old.items ++ along source.now (length instrs.old.items) (leaving number (slice_get block.now.instrs place) block.now.term)) }
{
    if place == block.instrs.len() && is_single(&block.term) {
        push_slot(source, instrs, number, 0)
    } else {
        Ok(())
    }
}

/// Adds the groups before a place of a block.
fn push_before(
    source: &Source<'_, '_, '_>,
    instrs: &mut Vec<Instr<'_>>,
    number: u32,
    block: &Block<'_>,
    place: usize,
) -> Result<(), NoMemory>
    requires { place ≤ length block.now.instrs }
    ensures { OnOk result (instrs.new.items ≡ instrs.old.items ++ before source.now number block.now place (length instrs.old.items)) }
{
    push_entering(source, instrs, number, place)?;
    push_inside(source, instrs, number, place)?;
    push_leaving(source, instrs, number, block, place)
}

/// The new text of a block of this number.
fn block_text<'a>(
    source: &Source<'_, '_, '_>,
    number: u32,
    block: &Block<'a>,
) -> Result<NewText<'a>, NoMemory>
    requires { (k : ℕ) (instr : Instr) → slice_get block.now.instrs k ≡ Some instr → AreBelow k instr.kind }
    ensures { IfOk result (IsText source.now number block.now) }
{
    let mut instrs = Vec::new(source.alloc);
    let mut numbers = Vec::new(source.alloc);
    for (place, instr) in block.instrs.as_slice().iter().enumerate() {
        push_before(source, &mut instrs, number, block, place)?;
        let register = text_number(instrs.len())?;
        let action = source.action(number, place);
        instrs.push(acted(source, action, instr, numbers.as_slice())?)?;
        push_store(source, &mut instrs, action, register)?;
        numbers.push(register)?;
    }
    push_before(source, &mut instrs, number, block, block.instrs.len())?;
    Ok(NewText {
        instrs: Items::from(instrs),
        numbers: Items::from(numbers),
    })
}

/// The new text of a block of a function of the table's module. `NoMemory` where an allocation was refused, or where the
/// text would need a number of more than 32 bits.
pub fn new_text<'a>(
    alloc: Global,
    function: &Function<'a>,
    table: &Table<'_, '_>,
    changes: &Changes,
    block: u32,
) -> Result<NewText<'a>, NoMemory>
    requires rules { IsFunctionIn table.now.module_of function.now }
    requires plan { HasPlan function.now table.now.exprs changes.now }
    requires block { block < length function.now.blocks }
    ensures { (plan : Plan) → AreChanges plan table.now.exprs changes.now → IfOk result (λ new.
        (old : Block) → slice_get function.now.blocks block ≡ Some old → IsNewText plan function.now block old new) }
{
    let source = source(alloc, function, table, changes);
    block_text(&source, block, block_at(function, block))
}

/// The groups of a slot of a block, which are the text of the block that splits it. `NoMemory` where an allocation was
/// refused, or where the text would need a number of more than 32 bits.
pub fn groups<'a>(
    alloc: Global,
    function: &Function<'a>,
    table: &Table<'_, '_>,
    changes: &Changes,
    block: u32,
    slot: u32,
) -> Result<Items<Instr<'a>>, NoMemory>
    requires plan { HasPlan function.now table.now.exprs changes.now }
    requires block { block < length function.now.blocks }
    ensures { (plan : Plan) → AreChanges plan table.now.exprs changes.now → IfOk result (λ instrs. IsGroups plan function.now (Slot block slot) instrs) }
{
    let source = source(alloc, function, table, changes);
    let mut instrs = Vec::new(alloc);
    push_slot(&source, &mut instrs, block, slot)?;
    Ok(Items::from(instrs))
}
