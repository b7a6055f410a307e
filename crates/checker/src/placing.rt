//! What a certificate places in each function.
ghost use Rattle.std.specs.Prelude.{◌≡◌, ◌<◌, IfOk, length};
ghost use Rattle.checker.specs.Placing.{ArePlacedBy, placed_by};

use crate::numbered::Numbered;
use certificate::{Certificate, Entry};
use certified::placements_of;
use ir_types::items::Items;
use mc_num::NoMemory;
use std::alloc::Global;
use transform::Placed;

/// The points and the table of a function, with the placements that entries name.
fn placed_in<'m, 'a>(
    alloc: Global,
    own: Numbered<'m, 'a>,
    entries: &[Entry],
) -> Result<Placed<'m, 'a>, NoMemory>
    ensures { IfOk result (λ placed. placed ≡ placed_by own.entry entries.now) }
{
    let placements = placements_of(alloc, entries)?;
    let Numbered {
        function: _,
        points,
        table,
    } = own;
    Ok(Placed {
        points,
        table,
        placements: Items::from(placements),
    })
}

/// What the certificate places in each function. `NoMemory` where an allocation was refused.
pub(crate) fn placed_of<'m, 'a>(
    alloc: Global,
    numbered: Vec<Numbered<'m, 'a>>,
    certificate: &Certificate,
) -> Result<Vec<Placed<'m, 'a>>, NoMemory>
    requires { length certificate.now.functions ≡ length numbered.items }
    ensures { IfOk result (λ placed. ArePlacedBy numbered.entry.items certificate.now placed.items) }
{
    let mut placed = Vec::new(alloc);
    let lists = certificate.functions.as_slice();
    for own in numbered {
        let entries = lists[placed.len()].as_slice();
        placed.push(placed_in(alloc, own, entries)?)?;
    }
    Ok(placed)
}
