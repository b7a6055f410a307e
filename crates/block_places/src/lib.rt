//! The places of blocks among the reached ones.
#![tactic(auto)]

ghost use Rattle.std.specs.Prelude.{◌<◌, ◌^◌, All, IfOk, length};
ghost use Rattle.block_places.specs.Places.{ArePlaces};

use mc_num::NoMemory;
use std::alloc::Global;

/// For each of `count` blocks how many of `blocks` come before it: its place among them, or their number if it is none
/// of them.
pub fn places(alloc: Global, blocks: &[u32], count: usize) -> Result<Vec<u32>, NoMemory>
    requires within { All (λ b. b < count) blocks.now }
    requires few { length blocks.now < 2 ^ 20 }
    ensures { IfOk result (λ places. ArePlaces blocks.now count places.items) }
{
    let mut places = vec![in alloc; blocks.len() as u32; count]?;
    for place in (0..blocks.len()).rev() {
        places[blocks[place] as usize] = place as u32;
    }
    Ok(places)
}
