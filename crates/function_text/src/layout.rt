//! Where the blocks of a function stand in the new one, and where their slots lead.
ghost use Rattle.std.specs.Prelude.{◌≡◌, ◌+◌, ◌<◌, ◌^◌, All, IfOk, length};
ghost use Rattle.flow_graph.specs.Slots.{slots_of};
ghost use Rattle.applied.specs.Applied.{is_single};
ghost use Rattle.changes.specs.Changed.{listed};
ghost use Rattle.function_text.specs.ByChanges.{homes_from, is_filled, is_split, leads_from, new_count_from, slot_lists, split_count};

use changes::Changes;
use flow_graph::{slot_count, slots_len, target};
use ir_types::items::Items;
use ir_types::syntax::{Function, Terminator};
use mc_num::NoMemory;
use std::alloc::Global;

/// For each slot of a block what is inserted on it.
pub fn slot_lists<'c>(changes: &'c Changes, block: u32) -> &'c [Items<u32>]
    ensures { result.now ≡ slot_lists changes.now block }
{
    match changes.blocks.get(block as usize) {
        Some(block) => block.slots.as_slice(),
        None => &[],
    }
}

/// Whether something is inserted on a slot.
fn is_filled(lists: &[Items<u32>], slot: u32) -> bool
    ensures { result ≡ is_filled (listed lists.now slot) }
{
    lists
        .get(slot as usize)
        .is_some_and(|list| !list.as_slice().is_empty())
}

/// Whether a terminator has one slot.
fn is_single(term: &Terminator) -> bool
    ensures { result ≡ is_single term.now }
{
    slots_len(term) == 1
}

/// Whether a block splits a slot: something is inserted on it, and it is one of several.
pub fn is_split(term: &Terminator, lists: &[Items<u32>], slot: u32) -> bool
    ensures { result ≡ is_split lists.now term.now slot }
{
    !is_single(term) && is_filled(lists, slot)
}

/// Where a block ends with its split blocks, the first of which stands at `first`.
fn end_of(term: &Terminator, lists: &[Items<u32>], first: u32) -> u32
    requires few { length (slots_of term.now) < 2 ^ 32 }
    requires fits { first + split_count lists.now term.now (length (slots_of term.now)) < 2 ^ 32 }
    ensures { result ≡ first + split_count lists.now term.now (length (slots_of term.now)) }
{
    let mut next = first;
    for slot in 0..slot_count(term) {
        if is_split(term, lists, slot) {
            next += 1;
        }
    }
    next
}

/// For each block of a function where it stands in the new one. It takes linear time. `NoMemory` where an allocation was
/// refused.
pub fn homes(
    alloc: Global,
    function: &Function<'_>,
    changes: &Changes,
) -> Result<Vec<u32>, NoMemory>
    requires few { All (λ block. length (slots_of block.term) < 2 ^ 32) function.now.blocks }
    requires fits { new_count_from changes.now 0 function.now.blocks < 2 ^ 32 }
    ensures { IfOk result (λ homes. homes.items ≡ homes_from changes.now 0 0 function.now.blocks) }
{
    let mut homes = Vec::new(alloc);
    let mut next = 0;
    for (number, block) in function.blocks.as_slice().iter().enumerate() {
        homes.push(next)?;
        next = end_of(&block.term, slot_lists(changes, number as u32), next + 1);
    }
    Ok(homes)
}

/// For each slot of a terminator the new block to which it leads: the one that splits it, or its target's home. The
/// first split block stands at `first`. `NoMemory` where an allocation was refused.
pub fn leads(
    alloc: Global,
    term: &Terminator,
    lists: &[Items<u32>],
    homes: &[u32],
    first: u32,
) -> Result<Vec<u32>, NoMemory>
    requires targets { All (λ t. t < length homes.now) (slots_of term.now) }
    requires few { length (slots_of term.now) < 2 ^ 32 }
    requires fits { first + split_count lists.now term.now (length (slots_of term.now)) < 2 ^ 32 }
    ensures { IfOk result (λ leads. leads.items ≡ leads_from lists.now term.now homes.now first 0 (slots_of term.now)) }
{
    let mut leads = Vec::new(alloc);
    let mut next = first;
    for slot in 0..slot_count(term) {
        if is_split(term, lists, slot) {
            leads.push(next)?;
            next += 1;
        } else {
            leads.push(homes[target(term, slot) as usize])?;
        }
    }
    Ok(leads)
}
