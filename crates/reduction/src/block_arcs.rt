//! The arcs of a block.
ghost use Rattle.std.specs.Prelude.{◌≡◌, ◌++◌, ◌<◌, ◌^◌, ◌∷◌, [], All, OnOk, length, slice_index};
ghost use Rattle.flow_graph.specs.Slots.{slots_of};
ghost use Rattle.best_placement.specs.BlockNetwork.{first_arcs, head_node, last_arcs, terminator_node};
ghost use Rattle.reduction.specs.BlockArcs.{block_arcs, counted_arcs, places_by};

use expressions::Event;
use flow_graph::slot_target;
use flow_net::Arc;
use ir_types::syntax::Terminator;
use local_sets::BlockSets;
use mc_num::NoMemory;
use placement::weight;

/// The node of the head of the block at this place.
fn head(place: u32) -> u32
    requires { head_node place < 2 ^ 32 }
    ensures { result ≡ head_node place }
{
    2 + 2 * place
}

/// The node of its terminator.
fn terminator(place: u32) -> u32
    requires { terminator_node place < 2 ^ 32 }
    ensures { result ≡ terminator_node place }
{
    3 + 2 * place
}

/// Adds the arc of a block's first event: to the sink before an occurrence, and none before a kill.
fn push_first(arcs: &mut Vec<Arc>, event: Event, place: u32, weight: u128) -> Result<(), NoMemory>
    requires { terminator_node place < 2 ^ 32 }
    ensures { OnOk result (arcs.new.items ≡ arcs.old.items ++ first_arcs event place weight) }
{
    let to = match event {
        Event::Kills => return Ok(()),
        Event::Occurs => 1,
        Event::Bars | Event::Passes => terminator(place),
    };
    arcs.push(Arc {
        from: head(place),
        to,
        cap: weight,
    })?;
    Ok(())
}

/// Adds the arc of a block's last event: from the source behind a kill.
fn push_last(arcs: &mut Vec<Arc>, event: Event, place: u32, weight: u128) -> Result<(), NoMemory>
    requires { terminator_node place < 2 ^ 32 }
    ensures { OnOk result (arcs.new.items ≡ arcs.old.items ++ last_arcs event place weight) }
{
    match event {
        Event::Kills => arcs.push(Arc {
            from: 0,
            to: terminator(place),
            cap: weight,
        })?,
        Event::Occurs | Event::Bars | Event::Passes => {}
    }
    Ok(())
}

/// Adds the arcs of a block's slots, by their counts.
fn push_slots(
    arcs: &mut Vec<Arc>,
    place: u32,
    term: &Terminator,
    counts: &[u64],
    places: &[u32],
) -> Result<(), NoMemory>
    requires place { terminator_node place < 2 ^ 32 }
    requires counts { length counts.now ≡ length (slots_of term.now) }
    requires targets { All (λ t. (t < length places.now) × (head_node (slice_index places.now t) < 2 ^ 32)) (slots_of term.now) }
    ensures { OnOk result (arcs.new.items ≡ arcs.old.items ++ counted_arcs place (places_by places.now (slots_of term.now)) counts.now) }
{
    for (slot, count) in counts.iter().enumerate() {
        let target = slot_target(term, slot).unwrap();
        arcs.push(Arc {
            from: terminator(place),
            to: head(places[target as usize]),
            cap: weight(*count),
        })?;
    }
    Ok(())
}

/// Adds the arcs of the block at this place, by its sets, its weight and the counts of its slots.
pub fn push_block(
    arcs: &mut Vec<Arc>,
    place: u32,
    sets: BlockSets,
    weight: u128,
    term: &Terminator,
    counts: &[u64],
    places: &[u32],
) -> Result<(), NoMemory>
    requires place { terminator_node place < 2 ^ 32 }
    requires counts { length counts.now ≡ length (slots_of term.now) }
    requires targets { All (λ t. (t < length places.now) × (head_node (slice_index places.now t) < 2 ^ 32)) (slots_of term.now) }
    ensures { OnOk result (arcs.new.items ≡ arcs.old.items ++ block_arcs sets place weight (places_by places.now (slots_of term.now)) counts.now) }
{
    push_first(arcs, sets.first, place, weight)?;
    push_last(arcs, sets.last, place, weight)?;
    push_slots(arcs, place, term, counts, places)
}
