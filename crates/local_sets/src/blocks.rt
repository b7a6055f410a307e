//! What each block does to an expression.
ghost use Rattle.std.specs.Prelude.{◌≡◌, ◌<◌, ◌≤◌, ◌+◌, ◌^◌, ℕ, All, IfOk, flat_map, length};
ghost use Rattle.std.specs.List.{AllZip};
ghost use Rattle.point_graph.specs.Numbers.{ArePoints, of_block, block_points};
ghost use Rattle.expressions.specs.Kept.{Kept};
ghost use Rattle.expressions.specs.Tables.{IsTable};
ghost use Rattle.local_sets.specs.Blocks.{is_forced, sets_of, IsBlockSets};
ghost use Rattle.local_sets.specs.Stepping.{first_of, with_event, AreLeft};

use crate::telling::events;
use expressions::{Event, Table};
use ir_types::syntax::Function;
use mc_num::NoMemory;
use point_graph::Points;
use std::alloc::Global;

/// What a block does to an expression.
#[derive(Clone, Copy, Debug, PartialEq, Eq)]
pub struct BlockSets {
    /// The first of its points that occurs or kills; `Passes` where none does.
    pub first: Event,
    /// The last of them.
    pub last: Event,
    /// How many occurrences have a kill before them in the block, with no occurrence between.
    pub forced: u32,
}

/// The first of two events, where `Passes` is none.
fn first(before: Event, event: Event) -> Event
    ensures { result ≡ first_of before event }
{
    match before {
        Event::Passes => event,
        Event::Occurs | Event::Kills | Event::Bars => before,
    }
}

/// 1 where an occurrence has a kill before it.
fn forced(before: Event, event: Event) -> u32
    ensures { result ≡ is_forced before event }
{
    match (before, event) {
        (Event::Kills, Event::Occurs) => 1,
        _ => 0,
    }
}

/// The sets with one event more.
fn then_event(sets: BlockSets, event: Event) -> BlockSets
    requires { sets.forced + 1 < 2 ^ 32 }
    ensures { result ≡ with_event sets event }
{
    match event {
        Event::Bars | Event::Passes => sets,
        Event::Occurs | Event::Kills => BlockSets {
            first: first(sets.first, event),
            last: event,
            forced: sets.forced + forced(sets.last, event),
        },
    }
}

/// The sets of a block whose points have these events.
fn sets_of(events: &[Event]) -> BlockSets
    requires { length events.now < 2 ^ 32 }
    ensures { result ≡ sets_of events.now }
{
    let mut sets = BlockSets {
        first: Event::Passes,
        last: Event::Passes,
        forced: 0,
    };
    for event in events {
        sets = then_event(sets, *event);
    }
    sets
}

/// For each reached block, in order, the first and the last of its points that occurs or kills, and how many occurrences
/// have a kill before them.
///
/// `e` is the number of the expression. It takes linear time. `NoMemory` where an allocation was refused.
pub fn local_sets(
    alloc: Global,
    function: &Function<'_>,
    points: &Points,
    table: &Table<'_, '_>,
    e: u32,
) -> Result<Vec<BlockSets>, NoMemory>
    requires points { ArePoints function.now points.now }
    requires table { IsTable function.now points.now table.now }
    requires expression { e < length table.now.exprs }
    ensures { IfOk result (λ sets. AllZip (IsBlockSets function.now table.now e) points.now.blocks sets.items) }
{
    let events = events(alloc, function, points, table, e)?;
    all_sets(alloc, function, points.blocks.as_slice(), &events[1..])
}

/// The sets of these blocks, whose points have these events.
fn all_sets(
    alloc: Global,
    function: &Function<'_>,
    blocks: &[u32],
    events: &[Event],
) -> Result<Vec<BlockSets>, NoMemory>
    requires within { All (λ b. b < length function.now.blocks) blocks.now }
    requires count { length (flat_map (of_block block_points function.now) blocks.now) ≡ length events.now }
    requires few { length events.now < 2 ^ 32 }
    ensures { IfOk result (λ sets. (t : Kept) (e : ℕ) → AreLeft function.now t e blocks.now events.now → AllZip (IsBlockSets function.now t e) blocks.now sets.items) }
{
    let mut sets = Vec::new(alloc);
    let mut left = events;
    for block in blocks {
        let count = function.blocks.as_slice()[*block as usize].instrs.len() + 2;
        let (here, rest) = left.split_at(count);
        sets.push(sets_of(here))?;
        left = rest;
    }
    Ok(sets)
}
