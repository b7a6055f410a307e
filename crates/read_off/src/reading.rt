//! The placement read off a set of nodes.
ghost use Rattle.std.specs.Prelude.{◌≡◌, ℕ, Bool, ◌+◌, ◌*◌, ◌<◌, ◌≤◌, ◌^◌, All, IfOk, false, length, map, slice_index, slice_index_or};
ghost use Rattle.flow_graph.specs.Slots.{slots_of};
ghost use Rattle.point_graph.specs.Numbers.{ArePoints};
ghost use Rattle.expressions.specs.Tables.{IsEventOf, IsTable};
ghost use Rattle.profile.specs.declared.counts.FnCounts.{FnCounts};
ghost use Rattle.expressions.specs.declared.syntax.Event.{Event};
ghost use Rattle.placement.specs.Marking.{AreEvents};
ghost use Rattle.best_placement.specs.BlockNetwork.{head_node, terminator_node};
ghost use Rattle.best_placement.specs.Laws.{IsPlacement, IsReadOffOn};
ghost use Rattle.function_graphs.specs.Graphs.{IsIn, graph_of};
ghost use Rattle.read_off.specs.Bits.{event_at, shape_with, targets_by, ReadsBlock, ReadsSlots, ReadsSteps};

use crate::bits::SetBits;
use crate::rules::{event_after, is_exit_inserted, is_kept, is_slot_inserted};
use block_places::places;
use expressions::{Event, Table, event};
use flow_graph::{slot_count, target};
use function_graphs::functions_have_graphs;
use ir_types::items::Items;
use ir_types::syntax::{Block, Function, Terminator};
use mc_num::NoMemory;
use placement::Placement;
use point_graph::{Points, block_at};
use std::alloc::Global;

/// What each point is to an expression of the table.
fn events(
    alloc: Global,
    function: &Function<'_>,
    points: &Points,
    table: &Table<'_, '_>,
    e: u32,
) -> Result<Vec<Event>, NoMemory>
    requires table { IsTable function.now points.now table.now }
    requires expression { e < length table.now.exprs }
    requires few { length points.now.points < 2 ^ 32 }
    ensures { IfOk result (λ events. AreEvents (IsEventOf function.now points.now table.now e) (length points.now.points) events.items) }
{
    let mut events = Vec::new(alloc);
    for point in 0..points.points.len() {
        events.push(event(function, points, table, e, point as u32))?;
    }
    Ok(events)
}

/// Reads the instructions of a block and the edges that lead to them, and gives the last event.
fn read_steps(
    inserted: &mut SetBits,
    kept: &mut SetBits,
    events: &[Event],
    head: bool,
    instructions: usize,
) -> Result<Event, NoMemory>
    requires edges { inserted.old.next + instructions < 2 ^ 32 }
    requires points { kept.old.next + instructions < 2 ^ 32 }
    requires events { kept.old.next + instructions ≤ length events.now }
    ensures { IfOk result (ReadsSteps (event_at events.now) head instructions inserted.old inserted.new kept.old kept.new) }
{
    let mut before = Event::Passes;
    for _step in 0..instructions {
        let event = events[kept.next as usize];
        inserted.add(false)?;
        kept.add(is_kept(event, before, head))?;
        before = event_after(event, before);
    }
    Ok(before)
}

/// Reads the slots of a block.
fn read_slots(
    inserted: &mut SetBits,
    sink_side: &[bool],
    places: &[u32],
    terminator: bool,
    term: &Terminator,
) -> Result<(), NoMemory>
    requires edges { inserted.old.next + length (slots_of term.now) < 2 ^ 32 }
    requires targets { All (λ t. (t < length places.now) × (head_node (slice_index places.now t) < length sink_side.now)) (slots_of term.now) }
    ensures { IfOk result (λ _. ReadsSlots sink_side.now terminator (targets_by places.now (slots_of term.now)) inserted.old inserted.new) }
{
    for slot in 0..slot_count(term) {
        let place = places[target(term, slot) as usize];
        inserted.add(is_slot_inserted(sink_side, terminator, place))?;
    }
    Ok(())
}

/// Reads the block at this place: a bit for each of its points and each of its edges.
fn read_block(
    inserted: &mut SetBits,
    kept: &mut SetBits,
    events: &[Event],
    sink_side: &[bool],
    places: &[u32],
    place: usize,
    block: &Block<'_>,
) -> Result<(), NoMemory>
    requires edges { inserted.old.next + length block.now.instrs + length (slots_of block.now.term) + 1 < 2 ^ 32 }
    requires points { kept.old.next + length block.now.instrs + 2 < 2 ^ 32 }
    requires events { kept.old.next + length block.now.instrs + 2 ≤ length events.now }
    requires nodes { terminator_node place < length sink_side.now }
    requires targets { All (λ t. (t < length places.now) × (head_node (slice_index places.now t) < length sink_side.now)) (slots_of block.now.term) }
    ensures { IfOk result (λ _. (weight : ℕ) → ReadsBlock (event_at events.now) (λ v. slice_index_or sink_side.now v false) place (shape_with (length block.now.instrs) (targets_by places.now (slots_of block.now.term)) weight) inserted.old inserted.new kept.old kept.new) }
{
    let head = sink_side[2 + 2 * place];
    let terminator = sink_side[3 + 2 * place];
    let instructions = block.instrs.len();
    kept.add(false)?;
    let last = read_steps(inserted, kept, events, head, instructions)?;
    kept.add(false)?;
    inserted.add(is_exit_inserted(terminator, last, head))?;
    read_slots(inserted, sink_side, places, terminator, &block.term)?;
    Ok(())
}

/// The placement of an expression that is read off a set of nodes of its block network.
///
/// `e` is the number of the expression. `sink_side` has a flag for each node: the source, the sink, and then a head and
/// a terminator for each reached block, in order. It takes linear time. `NoMemory` where an allocation was refused.
pub fn read_off(
    alloc: Global,
    function: &Function<'_>,
    points: &Points,
    table: &Table<'_, '_>,
    e: u32,
    sink_side: &[bool],
) -> Result<Placement, NoMemory>
    requires defined { 0 < length function.now.blocks }
    requires points { ArePoints function.now points.now }
    requires table { IsTable function.now points.now table.now }
    requires expression { e < length table.now.exprs }
    requires nodes { length sink_side.now ≡ 2 + 2 * length points.now.blocks }
    ensures placed { IfOk result (λ p. (counts : FnCounts) (reached : ℕ → Bool) (event : ℕ → Event) → IsIn function.now points.now table.now e reached event
        → IsPlacement (graph_of function.now points.now counts reached event) p) }
    ensures read { IfOk result (λ p. (counts : FnCounts) (reached : ℕ → Bool) (event : ℕ → Event) → IsIn function.now points.now table.now e reached event
        → IsReadOffOn (graph_of function.now points.now counts reached event) (λ v. slice_index_or sink_side.now v false) p) }
{
    functions_have_graphs();
    let listed_events = events(alloc, function, points, table, e)?;
    let blocks = points.blocks.as_slice();
    let listed_places = places(alloc, blocks, function.blocks.len())?;
    let mut inserted = SetBits::new(alloc);
    let mut kept = SetBits::new(alloc);
    inserted.add(sink_side[2])?;
    kept.add(false)?;
    let events = listed_events.as_slice();
    let places = listed_places.as_slice();
    for (place, number) in blocks.iter().enumerate() {
        let block = block_at(function, *number);
        read_block(
            &mut inserted,
            &mut kept,
            events,
            sink_side,
            places,
            place,
            block,
        )?;
    }
    Ok(Placement {
        inserted: Items::from(inserted.numbers),
        kept: Items::from(kept.numbers),
    })
}
