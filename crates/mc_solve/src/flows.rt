//! Flows of the needed part of a network as flows of the whole.
ghost use Rattle.std.specs.Prelude.{◌≡◌, ◌+◌, ◌<◌, ◌≤◌, All, IfOk, length};
ghost use Rattle.std.specs.List.Sorted.{IsStrictlyIncreasing};
ghost use Rattle.flow_net.specs.Network.{IsMaximum, IsValid};
ghost use Rattle.reduced_flows.specs.Flows.{IsSpread};
ghost use Rattle.mc_solve.specs.Parts.{IsPartOf};

use crate::networks::Networks;
use flow_net::Flow;
use max_flow::{Steps, max_flow};
use mc_num::NoMemory;
use std::alloc::Global;
use std::sync::ledger::Ledger;

/// For each of `count` arcs of the whole its amount in the part, and 0 for those that aren't in it. `arc_of` has the number
/// of each arc of the part, in ascending order.
fn spread(
    alloc: Global,
    count: usize,
    arc_of: &[u32],
    amounts: &[u128],
) -> Result<Vec<u128>, NoMemory>
    requires each { length amounts.now ≡ length arc_of.now }
    requires ascending { IsStrictlyIncreasing arc_of.now }
    requires within { All (λ arc. arc < count) arc_of.now }
    ensures { IfOk result (λ whole. IsSpread count arc_of.now amounts.now whole.items) }
{
    let mut whole = vec![in alloc; 0; count]?;
    for (index, arc) in arc_of.iter().enumerate() {
        whole[*arc as usize] = amounts[index];
    }
    Ok(whole)
}

/// A maximum flow of the whole network: one of the part that is needed, with nothing on the other arcs.
pub fn flow_of<L: Ledger>(
    alloc: Global,
    nets: &Networks,
    steps: &mut Steps<L>,
) -> Result<Flow, NoMemory>
    requires valid { IsValid nets.now.needed.net }
    requires part { IsPartOf nets.now.full.net nets.now.needed }
    ensures maximum { IfOk result (IsMaximum nets.now.full.net) }
    ensures phases { steps.new ≤ steps.old + nets.now.needed.net.nodes }
{
    let part = max_flow(alloc, &nets.needed.net, steps)?;
    let count = nets.full.net.arcs.len();
    let amounts = spread(alloc, count, &nets.needed.arc_of, &part.amounts)?;
    Ok(Flow { amounts })
}
