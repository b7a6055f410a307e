//! The names of the rounds.
ghost use Rattle.std.specs.Prelude.{◌≡◌, IfOk, map};
ghost use Rattle.std.specs.List.{range_with_len};
ghost use Rattle.workload.specs.Names.{name_bytes, round_names};

use ir_types::items::Items;
use itoa::Buffer;
use mc_num::NoMemory;
use std::alloc::Global;

/// The names of the blocks of a round and of their results, as bytes: where the round starts with its value and its
/// test, to the left with its value and its sum, to the right, and where both join with its value and its sum.
#[derive(Drop)]
pub struct RoundNames {
    pub start: Items<u8>,
    pub start_value: Items<u8>,
    pub start_test: Items<u8>,
    pub left: Items<u8>,
    pub left_value: Items<u8>,
    pub left_sum: Items<u8>,
    pub right: Items<u8>,
    pub join: Items<u8>,
    pub join_value: Items<u8>,
    pub join_sum: Items<u8>,
}

/// A letter, the number of a round, and what stands behind it.
fn name(alloc: Global, letter: &[u8], round: u32, part: &[u8]) -> Result<Items<u8>, NoMemory>
    ensures { IfOk result (λ name. name ≡ name_bytes letter.now round part.now) }
{
    let mut digits = Buffer::new();
    let mut bytes = Vec::from_slice(alloc, letter)?;
    bytes.extend_from_slice(digits.format(round).as_bytes())?;
    bytes.extend_from_slice(part)?;
    Ok(Items::from(bytes))
}

fn round_names(alloc: Global, round: u32) -> Result<RoundNames, NoMemory>
    ensures { IfOk result (λ names. names ≡ round_names round) }
{
    let start = name(alloc, b"s", round, b"")?;
    let start_value = name(alloc, b"s", round, b".a")?;
    let start_test = name(alloc, b"s", round, b".c")?;
    let left = name(alloc, b"l", round, b"")?;
    let left_value = name(alloc, b"l", round, b".a")?;
    let left_sum = name(alloc, b"l", round, b".v")?;
    let right = name(alloc, b"r", round, b"")?;
    let join = name(alloc, b"j", round, b"")?;
    let join_value = name(alloc, b"j", round, b".a")?;
    let join_sum = name(alloc, b"j", round, b".v")?;
    Ok(RoundNames {
        start,
        start_value,
        start_test,
        left,
        left_value,
        left_sum,
        right,
        join,
        join_value,
        join_sum,
    })
}

/// The names of the first `n` rounds, in order. A module borrows its names, so its maker keeps these.
///
/// `NoMemory` where an allocation was refused.
#[tactic(auto, using(crate::proofs::Ranges::map_range_push))]
pub fn names(alloc: Global, n: u32) -> Result<Items<RoundNames>, NoMemory>
    ensures { IfOk result (λ names. names ≡ map round_names (range_with_len 0 n)) }
{
    let mut names = Vec::new(alloc);
    for round in 0..n {
        names.push(round_names(alloc, round)?)?;
    }
    Ok(Items::from(names))
}
