//! What is inserted and kept, by the events of a block and the nodes in the set.
ghost use Rattle.std.specs.Prelude.{◌≡◌, ◌<◌, ◌&&◌, false, not, length, slice_index_or};
ghost use Rattle.best_placement.specs.Bits.{is_occurrence as occurs};
ghost use Rattle.best_placement.specs.BlockNetwork.{event_after as event_then, head_node};
ghost use Rattle.best_placement.specs.ReadOff.{is_owed as is_owed_after};

use expressions::Event;

/// Whether a value must be computed where it is wanted, by the event before and whether the block's head is in the set.
fn is_owed(before: Event, head: bool) -> bool
    ensures { result ≡ is_owed_after before head }
{
    match before {
        Event::Occurs => false,
        Event::Kills => true,
        Event::Bars | Event::Passes => !head,
    }
}

/// The last occurrence or kill, after one more event.
pub fn event_after(event: Event, before: Event) -> Event
    ensures { result ≡ event_then event before }
{
    match event {
        Event::Occurs | Event::Kills => event,
        Event::Bars | Event::Passes => before,
    }
}

/// Whether an event is an occurrence.
fn is_occurrence(event: Event) -> bool
    ensures { result ≡ occurs event }
{
    match event {
        Event::Occurs => true,
        Event::Kills | Event::Bars | Event::Passes => false,
    }
}

/// Whether a point is a kept occurrence, by its event and the event before.
pub fn is_kept(event: Event, before: Event, head: bool) -> bool
    ensures { result ≡ (occurs event && is_owed_after before head) }
{
    is_occurrence(event) && is_owed(before, head)
}

/// Whether the edge into a terminator is inserted, by the last event of its block.
pub fn is_exit_inserted(terminator: bool, last: Event, head: bool) -> bool
    ensures { result ≡ (terminator && is_owed_after last head) }
{
    terminator && is_owed(last, head)
}

/// Whether a slot is inserted, by its block's terminator and the place of the block that it leads to.
pub fn is_slot_inserted(sink_side: &[bool], terminator: bool, place: u32) -> bool
    requires { head_node place < length sink_side.now }
    ensures { result ≡ (not terminator && slice_index_or sink_side.now (head_node place) false) }
{
    !terminator && sink_side[2 + 2 * place as usize]
}
