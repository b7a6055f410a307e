//! The bits of a block, compared with the lists of a placement.
ghost use Rattle.std.specs.Prelude.{◌≡◌, ℕ, ◌+◌, ◌<◌, ◌≤◌, ◌^◌, All, Some, Bool, false, length, map, slice_get, slice_index_or};
ghost use Rattle.std.specs.List.Sorted.{IsStrictlyIncreasing};
ghost use Rattle.flow_graph.specs.Slots.{slots_of};
ghost use Rattle.expressions.specs.declared.syntax.Event.{Event};
ghost use Rattle.expressions.specs.Tables.{IsEventOf};
ghost use Rattle.best_placement.specs.BlockNetwork.{terminator_node};
ghost use Rattle.function_graphs.specs.Graphs.{place_in};
ghost use Rattle.read_off.specs.Bits.{shape_with};
ghost use Rattle.places_check.specs.Walked.{AreIts, IsTarget, GoesBlock, GoesSlots, GoesSteps, IsListed};

use crate::cursor::Cursor;
use expressions::{Event, Table, event};
use flow_graph::{slot_count, target};
use ir_types::syntax::{Block, Function, Terminator};
use point_graph::Points;
use read_off::rules::{event_after, is_exit_inserted, is_kept, is_slot_inserted};

/// An expression by its number in the table of a function.
#[derive(Drop)]
pub struct Expression<'x, 'f, 'm, 'a> {
    pub function: &'x Function<'f>,
    pub points: &'x Points,
    pub table: &'x Table<'m, 'a>,
    pub number: u32,
}

/// What a point is to the expression.
fn event_at(expression: &Expression<'_, '_, '_, '_>, point: u32) -> Event
    requires expression { IsListed expression.now }
    requires point { point < length expression.now.points.now.points }
    ensures { IsEventOf expression.now.function.now expression.now.points.now expression.now.table.now expression.now.number point result }
{
    event(
        expression.function,
        expression.points,
        expression.table,
        expression.number,
        point,
    )
}

/// The place of a block among the listed ones.
fn place_of(blocks: &[u32], block: u32) -> u32
    requires ascending { IsStrictlyIncreasing blocks.now }
    requires few { length blocks.now < 2 ^ 32 }
    requires listed { slice_get blocks.now (place_in blocks.now block) ≡ Some block }
    ensures { result ≡ place_in blocks.now block }
{
    blocks.binary_search(&block).unwrap() as u32
}

/// Goes past the instructions of a block, and gives the last event.
fn pass_steps(
    kept: &mut Cursor<'_>,
    expression: &Expression<'_, '_, '_, '_>,
    head: bool,
    instructions: usize,
) -> Event
    requires expression { IsListed expression.now }
    requires points { kept.old.next + instructions < length expression.now.points.now.points }
    requires few { length expression.now.points.now.points < 2 ^ 32 }
    ensures next { kept.new.next ≡ kept.old.next + instructions }
    ensures steps { (event : ℕ → Event) (edge : ℕ) → AreIts expression.now event → GoesSteps event head edge instructions kept.old kept.new result }
{
    let mut before = Event::Passes;
    for _step in 0..instructions {
        let event = event_at(expression, kept.next);
        kept.pass(is_kept(event, before, head));
        before = event_after(event, before);
    }
    before
}

/// Goes past the slots of a block.
fn pass_slots(
    inserted: &mut Cursor<'_>,
    blocks: &[u32],
    sink_side: &[bool],
    terminator: bool,
    term: &Terminator,
)
    requires edges { inserted.old.next + length (slots_of term.now) < 2 ^ 32 }
    requires ascending { IsStrictlyIncreasing blocks.now }
    requires few { length blocks.now < 2 ^ 32 }
    requires targets { All (IsTarget blocks.now sink_side.now) (slots_of term.now) }
    ensures { GoesSlots sink_side.now terminator (map (place_in blocks.now) (slots_of term.now)) inserted.old inserted.new }
{
    for slot in 0..slot_count(term) {
        let place = place_of(blocks, target(term, slot));
        inserted.pass(is_slot_inserted(sink_side, terminator, place));
    }
}

/// Goes past the block at this place: a bit for each of its points and each of its edges.
pub fn pass_block(
    inserted: &mut Cursor<'_>,
    kept: &mut Cursor<'_>,
    expression: &Expression<'_, '_, '_, '_>,
    sink_side: &[bool],
    place: usize,
    block: &Block<'_>,
)
    requires expression { IsListed expression.now }
    requires edges { inserted.old.next + length block.now.instrs + length (slots_of block.now.term) + 1 < 2 ^ 32 }
    requires points { kept.old.next + length block.now.instrs + 2 ≤ length expression.now.points.now.points }
    requires few { length expression.now.points.now.points < 2 ^ 32 }
    requires nodes { terminator_node place < length sink_side.now }
    requires ascending { IsStrictlyIncreasing expression.now.points.now.blocks }
    requires few_blocks { length expression.now.points.now.blocks < 2 ^ 32 }
    requires targets { All (IsTarget expression.now.points.now.blocks sink_side.now) (slots_of block.now.term) }
    ensures edges { inserted.new.next ≡ inserted.old.next + length block.now.instrs + 1 + length (slots_of block.now.term) }
    ensures points { kept.new.next ≡ kept.old.next + length block.now.instrs + 2 }
    ensures block { (event : ℕ → Event) (weight : ℕ) → AreIts expression.now event
        → GoesBlock event (λ v. slice_index_or sink_side.now v false) place (shape_with (length block.now.instrs) (map (place_in expression.now.points.now.blocks) (slots_of block.now.term)) weight) inserted.old inserted.new kept.old kept.new }
{
    let head = sink_side[2 + 2 * place];
    let terminator = sink_side[3 + 2 * place];
    let instructions = block.instrs.len();
    kept.pass(false);
    let last = pass_steps(kept, expression, head, instructions);
    kept.pass(false);
    inserted.skip(instructions as u32);
    inserted.pass(is_exit_inserted(terminator, last, head));
    let blocks = expression.points.blocks.as_slice();
    pass_slots(inserted, blocks, sink_side, terminator, &block.term);
}
