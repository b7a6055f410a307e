//! The counts of a function by its blocks, made in one pass over its slots.
#![tactic(auto)]

ghost use Rattle.std.specs.Prelude.{◌≡◌, ◌<◌, ◌+◌, ◌^◌, ℕ, Bool, All, IfOk, length, slice_index, sum, take};
ghost use Rattle.flow_graph.specs.Slots.{slots_from, slots_of};
ghost use Rattle.flow_graph.specs.Paths.{AreReached};
ghost use Rattle.point_graph.specs.Numbers.{KeepsRules};
ghost use Rattle.profile.specs.Counts.{HasSlots, IsUnreachedZero, entering, total};
ghost use Rattle.profile.specs.Sums.{into};
ghost use Rattle.block_counts.specs.Counts.{AreBlockCounts, slot_counts as counts_of_slots, slots_before};

use flow_graph::{slot_target, slots_len};
use ir_types::syntax::{Block, Function, Terminator};
use mc_num::NoMemory;
use profile::FnCounts;
use std::alloc::Global;

/// The counts of a function by its blocks.
#[derive(Drop)]
pub struct BlockCounts {
    /// How often each block was entered.
    pub entered: Vec<u64>,
    /// How many slots the blocks before each block have: the index of the count of its first slot.
    pub begins: Vec<usize>,
}

/// Adds the counts of a terminator's slots to those of the blocks to which they lead.
fn add_slots(term: &Terminator, counts: &[u64], entered: &mut [u64])
    requires len { length counts.now ≡ length (slots_of term.now) }
    requires targets { All (λ t. t < length entered.old) (slots_of term.now) }
    requires room { (b : ℕ) → b < length entered.old → slice_index entered.old b + sum counts.now < 2 ^ 64 }
    ensures { (b : ℕ) → b < length entered.old → slice_index entered.new b ≡ slice_index entered.old b + into b (slots_of term.now) counts.now }
{
    for (slot, count) in counts.iter().enumerate() {
        let target = slot_target(term, slot).unwrap();
        entered[target as usize] += *count;
    }
}

/// How often each block was entered.
fn entered(alloc: Global, function: &Function<'_>, counts: &FnCounts) -> Result<Vec<u64>, NoMemory>
    requires rules { KeepsRules function.now }
    requires defined { 0 < length function.now.blocks }
    requires slots { HasSlots function.now counts.now }
    requires unreached { IsUnreachedZero function.now counts.now }
    requires total { total counts.now < 2 ^ 64 }
    ensures len { IfOk result (λ entered. length entered.items ≡ length function.now.blocks) }
    ensures entered { IfOk result (λ entered. (reached : ℕ → Bool) → AreReached function.now reached → (b : ℕ) → b < length function.now.blocks → slice_index entered.items b ≡ entering reached function.now counts.now b) }
{
    let mut entered = vec![in alloc; 0; function.blocks.len()]?;
    entered[0] = counts.entry;
    let blocks = function.blocks.as_slice();
    let mut rest = counts.slots.as_slice();
    for from in blocks {
        let (own, later) = rest.split_at(slots_len(&from.term));
        add_slots(&from.term, own, &mut entered);
        rest = later;
    }
    Ok(entered)
}

/// How many slots the blocks before each of these have.
fn begins(alloc: Global, blocks: &[Block<'_>]) -> Result<Vec<usize>, NoMemory>
    requires { length (slots_from 0 blocks.now) < 2 ^ 64 }
    ensures len { IfOk result (λ begins. length begins.items ≡ length blocks.now) }
    ensures begins { IfOk result (λ begins. (b : ℕ) → b < length blocks.now → slice_index begins.items b ≡ length (slots_from 0 (take b blocks.now))) }
{
    let mut begins = Vec::new(alloc);
    let mut next = 0;
    for block in blocks {
        begins.push(next)?;
        next += slots_len(&block.term);
    }
    Ok(begins)
}

/// How often each block of a function was entered, by accepted counts, and where the counts of its slots begin. It takes
/// linear time. `NoMemory` where an allocation was refused.
pub fn block_counts(
    alloc: Global,
    function: &Function<'_>,
    counts: &FnCounts,
) -> Result<BlockCounts, NoMemory>
    requires rules { KeepsRules function.now }
    requires defined { 0 < length function.now.blocks }
    requires slots { HasSlots function.now counts.now }
    requires unreached { IsUnreachedZero function.now counts.now }
    requires total { total counts.now < 2 ^ 64 }
    ensures { IfOk result (AreBlockCounts function.now counts.now) }
{
    let _len = counts.slots.len();
    Ok(BlockCounts {
        entered: entered(alloc, function, counts)?,
        begins: begins(alloc, function.blocks.as_slice())?,
    })
}

/// The counts of the slots of a block, in order. It takes no memory.
pub fn slot_counts<'c>(
    function: &Function<'_>,
    counts: &'c FnCounts,
    by_block: &BlockCounts,
    block: u32,
) -> &'c [u64]
    requires slots { HasSlots function.now counts.now }
    requires counts { AreBlockCounts function.now counts.now by_block.now }
    requires block { block < length function.now.blocks }
    ensures { result.now ≡ counts_of_slots function.now counts.now block }
{
    let begin = by_block.begins[block as usize];
    let count = slots_len(&function.blocks.as_slice()[block as usize].term);
    let (_before, rest) = counts.slots.as_slice().split_at(begin);
    let (own, _later) = rest.split_at(count);
    own
}
