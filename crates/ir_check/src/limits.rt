//! How much a function may have.
ghost use Rattle.std.specs.Prelude.{◌≡◌, ◌<◌, ◌≤◌, ◌↔◌, ◌^◌, not, length, All, IsTrue, count_by, sum_by};
ghost use Rattle.ir_types.specs.Limits.{IsWithinLimits, is_above_limits, is_alloca, raw_slot_count, slot_count};
ghost use Rattle.ir_types.specs.Size.{function_items};

use crate::reached::is_alloca;
use ir_types::module::Module;
use ir_types::syntax::{Block, Function, Terminator};
use ir_types::tree::{RawBlock, RawFunction, RawInstr, RawTerm};

/// The most instructions of a function, allocas left out.
const MOST_INSTRS: usize = 1 << 18;

/// The most blocks of a function.
const MOST_BLOCKS: usize = 1 << 16;

/// The most ways out of the blocks of a function.
const MOST_SLOTS: usize = 1 << 17;

/// The most variables of a function.
const MOST_VARIABLES: usize = 1 << 20;

fn allocas_in(instrs: &[RawInstr<'_>]) -> usize
    ensures { result ≡ count_by (λ x. is_alloca x.kind) instrs.now }
{
    instrs.iter().filter(|instr| is_alloca(&instr.kind)).count()
}

fn others_in(instrs: &[RawInstr<'_>]) -> usize
    ensures { result ≡ count_by (λ x. not (is_alloca x.kind)) instrs.now }
{
    instrs.len() - allocas_in(instrs)
}

fn raw_slot_count(term: &RawTerm<'_>) -> usize
    ensures { result ≡ raw_slot_count term.now }
{
    match term {
        RawTerm::Return(_) | RawTerm::Unreachable => 0,
        RawTerm::Jump(_) => 1,
        RawTerm::Branch(_, _, _) => 2,
        RawTerm::Switch(_, _, _, cases) => 1 + cases.as_slice().len(),
    }
}

fn variables_of(blocks: &[RawBlock<'_>]) -> usize
    requires { sum_by (λ b. count_by (λ x. is_alloca x.kind) b.instrs) blocks.now < 2 ^ 64 }
    ensures { result ≡ sum_by (λ b. count_by (λ x. is_alloca x.kind) b.instrs) blocks.now }
{
    blocks
        .iter()
        .map(|block| allocas_in(block.instrs.as_slice()))
        .sum()
}

fn instrs_of(blocks: &[RawBlock<'_>]) -> usize
    requires { sum_by (λ b. count_by (λ x. not (is_alloca x.kind)) b.instrs) blocks.now < 2 ^ 64 }
    ensures { result ≡ sum_by (λ b. count_by (λ x. not (is_alloca x.kind)) b.instrs) blocks.now }
{
    blocks
        .iter()
        .map(|block| others_in(block.instrs.as_slice()))
        .sum()
}

fn slots_of(blocks: &[RawBlock<'_>]) -> usize
    requires { sum_by (λ b. raw_slot_count b.term) blocks.now < 2 ^ 64 }
    ensures { result ≡ sum_by (λ b. raw_slot_count b.term) blocks.now }
{
    blocks.iter().map(|block| raw_slot_count(&block.term)).sum()
}

/// Whether a function has more than it may.
pub fn is_above_limits(function: &RawFunction<'_>) -> bool
    requires few { function_items function.now ≤ 2 ^ 26 }
    ensures { result ≡ is_above_limits function.now }
{
    let blocks = function.blocks.as_slice();
    let instrs = instrs_of(blocks);
    let slots = slots_of(blocks);
    let variables = variables_of(blocks);
    MOST_INSTRS < instrs
        || MOST_BLOCKS < blocks.len()
        || MOST_SLOTS < slots
        || MOST_VARIABLES < variables
}

fn slot_count(term: &Terminator) -> usize
    ensures { result ≡ slot_count term.now }
{
    match term {
        Terminator::Return(_) | Terminator::Unreachable => 0,
        Terminator::Jump(_) => 1,
        Terminator::Branch(_, _, _) => 2,
        Terminator::Switch(_, _, _, cases) => 1 + cases.as_slice().len(),
    }
}

fn has_few_instrs(blocks: &[Block<'_>]) -> bool
    ensures { IsTrue result ↔ (sum_by (λ b. length b.instrs) blocks.now ≤ 2 ^ 18) }
{
    let mut left = MOST_INSTRS;
    for block in blocks {
        let count = block.instrs.len();
        if left < count {
            return false;
        }
        left -= count;
    }
    true
}

fn has_few_slots(blocks: &[Block<'_>]) -> bool
    ensures { IsTrue result ↔ (sum_by (λ b. slot_count b.term) blocks.now ≤ 2 ^ 17) }
{
    let mut left = MOST_SLOTS;
    for block in blocks {
        let count = slot_count(&block.term);
        if left < count {
            return false;
        }
        left -= count;
    }
    true
}

fn is_within_limits(function: &Function<'_>) -> bool
    ensures { IsTrue result ↔ IsWithinLimits function.now }
{
    let blocks = function.blocks.as_slice();
    let instrs = has_few_instrs(blocks);
    let slots = has_few_slots(blocks);
    instrs && slots && blocks.len() <= MOST_BLOCKS && function.vars.len() <= MOST_VARIABLES
}

/// Whether each function of a module has no more than a function may. No memory.
pub fn within_limits(module: &Module<'_>) -> bool
    ensures { IsTrue result ↔ All IsWithinLimits «module».now.functions }
{
    for function in module.functions() {
        if !is_within_limits(function) {
            return false;
        }
    }
    true
}
