//! The network of the blocks of a function.
ghost use Rattle.std.specs.Prelude.{◌≡◌, ◌<◌, ◌^◌, IfOk, Some, length, slice_get};
ghost use Rattle.point_graph.specs.Numbers.{ArePoints};
ghost use Rattle.profile.specs.Counts.{HasSlots, IsUnreachedZero, total};
ghost use Rattle.flow_net.specs.Network.{IsValid};
ghost use Rattle.reduction.specs.Networks.{AreSetsOf, IsFullNetwork};

use crate::block_arcs::push_block;
use block_counts::{block_counts, slot_counts};
use block_places::places;
use flow_net::{Arc, Net};
use function_graphs::{events_exist, networks_are_valid, sets_agree};
use ir_types::syntax::Function;
use local_sets::BlockSets;
use mc_num::NoMemory;
use placement::weight;
use point_graph::{Points, block_at};
use profile::FnCounts;
use std::alloc::Global;

/// The network of an expression over the reached blocks, and what each placement pays besides.
#[derive(Drop)]
pub struct BlockNet {
    /// Node 0 is the source and node 1 the sink. The reached block at place i, in text order from 0, has its head at
    /// node 2 + 2i and its terminator at 3 + 2i.
    pub net: Net,
    /// The weights of the occurrences that have a kill before them in their block.
    pub constant: u128,
}

/// The sets of the block at this place.
fn sets_at(sets: &[BlockSets], place: usize) -> BlockSets
    requires { place < length sets.now }
    ensures { slice_get sets.now place ≡ Some result }
{
    sets[place]
}

/// The block network of an expression, by the sets of the reached blocks in order and the counts of the function.
///
/// The entry arc comes first, and then for each reached block the arc of its first event, that of its last event and its
/// slots. The capacity of an arc is the weight of its edge or of its block. It takes linear time. `NoMemory` where an
/// allocation was refused.
pub fn network(
    alloc: Global,
    function: &Function<'_>,
    points: &Points,
    sets: &[BlockSets],
    counts: &FnCounts,
) -> Result<BlockNet, NoMemory>
    requires defined { 0 < length function.now.blocks }
    requires points { ArePoints function.now points.now }
    requires sets { AreSetsOf function.now points.now sets.now }
    requires slots { HasSlots function.now counts.now }
    requires unreached { IsUnreachedZero function.now counts.now }
    requires total { total counts.now < 2 ^ 62 }
    ensures network { IfOk result (λ full. IsFullNetwork function.now points.now counts.now sets.now full) }
    ensures valid { IfOk result (λ full. IsValid full.net) }
    ensures few { IfOk result (λ full. length full.net.arcs.items < 2 ^ 32) }
    ensures bounded { IfOk result (λ full. full.constant < 2 ^ 104) }
{
    events_exist();
    sets_agree();
    networks_are_valid();
    let blocks = points.blocks.as_slice();
    let listed_places = places(alloc, blocks, function.blocks.len())?;
    let places = listed_places.as_slice();
    let by_block = block_counts(alloc, function, counts)?;
    let mut arcs = Vec::new(alloc);
    arcs.push(Arc {
        from: 0,
        to: 2,
        cap: weight(counts.entry),
    })?;
    let mut constant = 0;
    for (place, number) in blocks.iter().enumerate() {
        let block = block_at(function, *number);
        let slots = slot_counts(function, counts, &by_block, *number);
        let weight = weight(by_block.entered[*number as usize]);
        let of_block = sets_at(sets, place);
        push_block(
            &mut arcs,
            place as u32,
            of_block,
            weight,
            &block.term,
            slots,
            places,
        )?;
        constant += weight * u128::from(of_block.forced);
    }
    let net = Net {
        nodes: 2 + 2 * blocks.len() as u32,
        arcs,
    };
    Ok(BlockNet { net, constant })
}
