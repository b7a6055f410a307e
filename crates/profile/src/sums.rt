//! What enters and leaves blocks.
ghost use Rattle.std.specs.Prelude.{◌≡◌, ◌≢◌, ◌<◌, ◌≤◌, ◌+◌, ◌^◌, Bool, ℕ, false, IsTrue, length, sum, slice_index, MatchOption, ◌==◌, if◌then◌else◌};
ghost use Rattle.std.specs.List.{zip};
ghost use Rattle.flow_graph.specs.Slots.{slots_of, slots_from};
ghost use Rattle.flow_graph.specs.Paths.{AreReached, is_marked};
ghost use Rattle.profile.specs.Counts.{HasSlots, IsUnreachedZero, IsBalanced, entering, leaving, is_return, goes_on, total};
ghost use Rattle.profile.specs.Reading.{IsFirstUnbalanced, IsFirstUnreached};
ghost use Rattle.profile.specs.Sums.{into, entered, DiffersFirst};

use crate::counts::FnCounts;
use flow_graph::{slot_target, slots_len};
use ir_types::syntax::{Block, Function, Terminator};

/// The count, if it is one of those that are wanted.
fn count_if(wanted: bool, count: u64) -> u64
    ensures { result ≡ (if wanted then count else 0) }
{
    if wanted { count } else { 0 }
}

/// The sum of the counts of the slots that lead to `block`, of a terminator with these counts.
fn count_into(term: &Terminator, counts: &[u64], block: u32) -> u64
    requires len { length counts.now ≡ length (slots_of term.now) }
    requires fits { sum counts.now < 2 ^ 64 }
    ensures { result ≡ into block (slots_of term.now) counts.now }
{
    let mut into = 0;
    for (slot, count) in counts.iter().enumerate() {
        into += count_if(slot_target(term, slot).unwrap() == block, *count);
    }
    into
}

/// How often a block was entered, by accepted counts: the sum of the slots that lead to it, and for the entry block of
/// the entries of the function. It takes no memory.
pub fn count_of_block(function: &Function<'_>, counts: &FnCounts, block: u32) -> u64
    requires slots { HasSlots function.now counts.now }
    requires unreached { IsUnreachedZero function.now counts.now }
    requires total { total counts.now < 2 ^ 64 }
    ensures { (reached : ℕ → Bool) → AreReached function.now reached → result ≡ entering reached function.now counts.now block }
{
    let mut count = if block == 0 { counts.entry } else { 0 };
    let blocks = function.blocks.as_slice();
    let mut rest = counts.slots.as_slice();
    for from in blocks {
        let (own, later) = rest.split_at(slots_len(&from.term));
        count += count_into(&from.term, own, block);
        rest = later;
    }
    count
}

/// An entry count and counts sum to less than 2^128, since each is below 2^64 and there are fewer than 2^64. It does nothing.
fn sums_fit(entry: u64, counts: &[u64])
    ensures { entry + sum counts.now < 2 ^ 128 }
{
    let _len = counts.len();
}

/// Adds a count to the sum of a block, if there is such a block.
fn add_at(block: u32, count: u64, sums: &mut [u128])
    requires { slice_index sums.old block + count < 2 ^ 128 }
    ensures { (b : ℕ) → b < length sums.old → slice_index sums.new b ≡ slice_index sums.old b + (if block == b then count else 0) }
{
    let index = block as usize;
    if index < sums.len() {
        sums[index] += u128::from(count);
    }
}

/// Adds the counts of a terminator's slots to the sums of the blocks that they lead to.
fn add_slots(term: &Terminator, counts: &[u64], sums: &mut [u128])
    requires len { length counts.now ≡ length (slots_of term.now) }
    requires room { (b : ℕ) → slice_index sums.old b + sum counts.now < 2 ^ 128 }
    ensures { (b : ℕ) → b < length sums.old → slice_index sums.new b ≡ slice_index sums.old b + into b (slots_of term.now) counts.now }
{
    for (slot, count) in counts.iter().enumerate() {
        add_at(slot_target(term, slot).unwrap(), *count, sums);
    }
}

/// Adds the counts of the slots of reached blocks to the sums of the blocks that they lead to.
fn add_blocks(blocks: &[Block<'_>], counts: &[u64], reached: &[bool], sums: &mut [u128])
    requires len { length counts.now ≡ length (slots_from 0 blocks.now) }
    requires marks { length reached.now ≡ length blocks.now }
    requires room { (b : ℕ) → slice_index sums.old b + sum counts.now < 2 ^ 128 }
    ensures { (b : ℕ) → b < length sums.old → slice_index sums.new b ≡ slice_index sums.old b + entered (is_marked reached.now) b (zip (slots_from 0 blocks.now) counts.now) }
{
    let mut rest = counts;
    for (index, block) in blocks.iter().enumerate() {
        let (own, later) = rest.split_at(slots_len(&block.term));
        if reached[index] {
            add_slots(&block.term, own, sums);
        }
        rest = later;
    }
}

/// Puts what enters each block from outside the function: the entries into the entry block.
fn put_entries(entry: u64, sums: &mut [u128])
    ensures { (b : ℕ) → b < length sums.old → slice_index sums.new b ≡ (if b == 0 then entry else 0) }
{
    for sum in sums.iter_mut() {
        *sum = 0;
    }
    if !sums.is_empty() {
        sums[0] = u128::from(entry);
    }
}

/// The sum of counts.
pub(crate) fn sum_of(counts: &[u64]) -> u128
    ensures { result ≡ sum counts.now }
{
    let mut sum = 0;
    for count in counts {
        sum += u128::from(*count);
    }
    sum
}

fn is_return(term: &Terminator) -> bool
    ensures { result ≡ is_return term.now }
{
    matches!(term, Terminator::Return(_))
}

/// Whether what enters a reached block that doesn't end by `ret` isn't what leaves it.
fn is_unbalanced(term: &Terminator, reached: bool, into: u128, out: u128) -> bool
    ensures differ { IsTrue result → IsTrue reached × (is_return term.now ≡ false) × (into ≢ out) }
    ensures same { result ≡ false → IsTrue reached → is_return term.now ≡ false → into ≡ out }
{
    reached && !is_return(term) && into != out
}

/// The first reached block that doesn't end by `ret` and whose sum isn't that of its slots, with both sums.
fn first_difference(
    function: &Function<'_>,
    counts: &FnCounts,
    reached: &[bool],
    sums: &[u128],
) -> Option<(u32, u128, u128)>
    requires slots { HasSlots function.now counts.now }
    requires marks { length reached.now ≡ length function.now.blocks }
    requires sums { length sums.now ≡ length function.now.blocks }
    requires few { length function.now.blocks ≤ 2 ^ 32 }
    ensures { MatchOption result
        ((b : ℕ) → IsTrue (is_marked reached.now b) → IsTrue (goes_on function.now b) → slice_index sums.now b ≡ leaving function.now counts.now b)
        (λ x. DiffersFirst function.now counts.now (is_marked reached.now) sums.now x.0 x.1 x.2) }
{
    let blocks = function.blocks.as_slice();
    let mut rest = counts.slots.as_slice();
    for (index, block) in blocks.iter().enumerate() {
        let (own, later) = rest.split_at(slots_len(&block.term));
        let out = sum_of(own);
        if is_unbalanced(&block.term, reached[index], sums[index], out) {
            return Some((index as u32, sums[index], out));
        }
        rest = later;
    }
    None
}

/// The first reached block that doesn't end by `ret` and whose entering and leaving counts differ, with both sums.
///
/// `reached` marks the reached blocks, and `sums`, with a place for each block, is room to work in. It takes no memory.
pub fn balanced(
    function: &Function<'_>,
    counts: &FnCounts,
    reached: &[bool],
    sums: &mut [u128],
) -> Option<(u32, u128, u128)>
    requires slots { HasSlots function.now counts.now }
    requires reached { AreReached function.now (is_marked reached.now) }
    requires marks { length reached.now ≡ length function.now.blocks }
    requires sums { length sums.old ≡ length function.now.blocks }
    requires few { length function.now.blocks ≤ 2 ^ 32 }
    ensures { MatchOption result (IsBalanced function.now counts.now) (λ x. IsFirstUnbalanced function.now counts.now x.0 x.1 x.2) }
{
    let slots = counts.slots.as_slice();
    sums_fit(counts.entry, slots);
    put_entries(counts.entry, sums);
    add_blocks(function.blocks.as_slice(), slots, reached, sums);
    first_difference(function, counts, reached, sums)
}

/// Whether something leaves a block that isn't reached.
fn is_left(reached: bool, out: u128) -> bool
    ensures some { IsTrue result → (reached ≡ false) × (0 < out) }
    ensures none { result ≡ false → reached ≡ false → out ≡ 0 }
{
    !reached && out > 0
}

/// The first block that isn't reached and of which a slot has a count above 0.
pub(crate) fn first_unreached(
    function: &Function<'_>,
    counts: &FnCounts,
    reached: &[bool],
) -> Option<u32>
    requires slots { HasSlots function.now counts.now }
    requires reached { AreReached function.now (is_marked reached.now) }
    requires marks { length reached.now ≡ length function.now.blocks }
    requires few { length function.now.blocks ≤ 2 ^ 32 }
    ensures { MatchOption result (IsUnreachedZero function.now counts.now) (IsFirstUnreached function.now counts.now) }
{
    let blocks = function.blocks.as_slice();
    let mut rest = counts.slots.as_slice();
    for (index, block) in blocks.iter().enumerate() {
        let (own, later) = rest.split_at(slots_len(&block.term));
        if is_left(reached[index], sum_of(own)) {
            return Some(index as u32);
        }
        rest = later;
    }
    None
}
