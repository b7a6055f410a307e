//! The points at which each expression occurs.
ghost use Rattle.std.specs.Prelude.{◌≡◌, ◌<◌, ◌^◌, [], IfOk, OnOk, length, replicate};
ghost use Rattle.occurrences.specs.Listed.{AddsPlace, AreListed, AreOccurrences};

use expressions::Table;
use ir_types::items::Items;
use mc_num::NoMemory;
use std::alloc::Global;

/// `count` empty lists.
fn empty_lists(alloc: Global, count: usize) -> Result<Vec<Items<u32>>, NoMemory>
    ensures { IfOk result (λ lists. lists.items ≡ replicate count []) }
{
    let mut lists = Vec::new(alloc);
    for _i in 0..count {
        lists.push(Items::new(alloc))?;
    }
    Ok(lists)
}

/// Adds the point to the list of the expression that occurs there, if one does and has a list.
fn add_place(lists: &mut Vec<Items<u32>>, x: Option<u32>, point: u32) -> Result<(), NoMemory>
    ensures { OnOk result (AddsPlace x point lists.old.items lists.new.items) }
{
    if let Some(x) = x {
        let x = x as usize;
        if x < lists.len() {
            lists[x].push(point)?;
        }
    }
    Ok(())
}

/// The points at which each of the first `count` expressions occurs.
fn lists_of(
    alloc: Global,
    count: usize,
    occurring: &[Option<u32>],
) -> Result<Vec<Items<u32>>, NoMemory>
    requires few { length occurring.now < 2 ^ 32 }
    ensures { IfOk result (λ lists. AreListed count occurring.now lists.items) }
{
    let mut lists = empty_lists(alloc, count)?;
    for point in 0..occurring.len() {
        add_place(&mut lists, occurring[point], point as u32)?;
    }
    Ok(lists)
}

/// The points at which each expression of the table occurs, by their numbers, ascending. It takes linear time.
/// `NoMemory` where an allocation was refused.
pub fn occurrences(alloc: Global, table: &Table<'_, '_>) -> Result<Vec<Items<u32>>, NoMemory>
    requires few { length table.now.occurring < 2 ^ 32 }
    ensures { IfOk result (λ lists. AreOccurrences table.now lists.items) }
{
    lists_of(alloc, table.len() as usize, table.occurring())
}
