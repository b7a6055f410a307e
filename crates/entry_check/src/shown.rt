//! The flow and the ranks of an entry.

ghost use Rattle.std.specs.Prelude.{◌≡◌, ◌≤◌, [], ◌∷◌, ◌++◌, IfOk, MatchOption};
ghost use Rattle.entry_check.specs.Faults.{IsWhole};
ghost use Rattle.entry_check.specs.Parts.{IsShownBy};

use certificate::Entry;
use flow_net::{Flow, Net};
use mc_num::NoMemory;
use std::alloc::Global;

/// The flow and the ranks of an entry, as the checks want them.
#[derive(Drop)]
pub struct Shown {
    /// An amount for each arc.
    pub flow: Flow,
    /// A rank for each node, 0 for the source and the sink.
    pub ranks: Vec<u32>,
}

/// The flow and the ranks of an entry; `None` exactly where it has no flow or no ranks, or not one amount for each arc, or
/// not one rank for each node from node 2 on. `NoMemory` where an allocation was refused.
pub fn shown_by(alloc: Global, net: &Net, entry: &Entry) -> Result<Option<Shown>, NoMemory>
    requires { 2 ≤ net.now.nodes }
    ensures { IfOk result (λ shown. MatchOption shown (¬ (IsWhole net.now entry.now)) (IsShownBy net.now entry.now)) }
{
    let Some(amounts) = &entry.flow else {
        return Ok(None);
    };
    let Some(ranks) = &entry.ranks else {
        return Ok(None);
    };
    if amounts.len() != net.arcs.len() || ranks.len() != net.nodes as usize - 2 {
        return Ok(None);
    }
    let flow = Flow {
        amounts: copied(alloc, amounts.as_slice())?,
    };
    let ranks = with_ends(alloc, ranks.as_slice())?;
    Ok(Some(Shown { flow, ranks }))
}

/// A copy of the amounts.
fn copied(alloc: Global, amounts: &[u128]) -> Result<Vec<u128>, NoMemory>
    ensures { IfOk result (λ copy. copy.items ≡ amounts.now) }
{
    Ok(amounts.iter().copied().collect(alloc)?)
}

/// The ranks, with 0 for the source and for the sink before them.
fn with_ends(alloc: Global, ranks: &[u32]) -> Result<Vec<u32>, NoMemory>
    ensures { IfOk result (λ all. all.items ≡ 0 ∷ 0 ∷ ranks.now) }
{
    let mut all = vec![in alloc; 0, 0]?;
    for rank in ranks {
        all.push(*rank)?;
    }
    Ok(all)
}
