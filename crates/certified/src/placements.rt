//! The placements that entries name.
ghost use Rattle.std.specs.Prelude.{◌≡◌, IfOk};
ghost use Rattle.certified.specs.Certified.{placements_in};

use certificate::Entry;
use ir_types::items::Items;
use mc_num::NoMemory;
use placement::Placement;
use std::alloc::Global;

/// A copy of a placement.
fn copied(alloc: Global, placement: &Placement) -> Result<Placement, NoMemory>
    ensures { IfOk result (λ copy. copy ≡ placement.now) }
{
    Ok(Placement {
        inserted: Items::copied(alloc, placement.inserted.as_slice())?,
        kept: Items::copied(alloc, placement.kept.as_slice())?,
    })
}

/// Copies of the placements that the entries name, in their order. `NoMemory` where an allocation was refused.
pub fn placements_of(alloc: Global, entries: &[Entry]) -> Result<Vec<Placement>, NoMemory>
    ensures { IfOk result (λ placements. placements.items ≡ placements_in entries.now) }
{
    let mut placements = Vec::new(alloc);
    for entry in entries {
        placements.push(copied(alloc, &entry.placement)?)?;
    }
    Ok(placements)
}
