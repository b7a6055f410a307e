//! Maximum flow, by level phases after Dinic.
#![tactic(auto)]

mod blocking;
mod pushing;
mod steps;
mod working;

ghost use Rattle.std.specs.Prelude.{◌≡◌, ℕ, ◌+◌, ◌≤◌, IfOk, length, replicate};
ghost use Rattle.flow_net.specs.Network.{IsValid, IsWithin, IsBalanced, IsMaximum};
ghost use Rattle.max_flow.specs.Working.{view_of};

use flow_net::{Flow, Net};
use mc_num::NoMemory;
use std::alloc::Global;
use std::sync::ledger::Ledger;
pub use steps::Steps;
pub use working::{Room, phase};

/// A flow whose value no other exceeds.
pub fn max_flow<L: Ledger>(alloc: Global, net: &Net, steps: &mut Steps<L>) -> Result<Flow, NoMemory>
    requires valid { IsValid net.now }
    ensures maximum { IfOk result (IsMaximum net.now) }
    ensures phases { steps.new ≤ steps.old + net.now.nodes }
{
    let mut flow = no_flow(alloc, net)?;
    let mut room = room(alloc, net)?;
    for _round in 0..net.nodes {
        if !phase(net, &mut flow, &mut room, steps) {
            return Ok(flow);
        }
    }
    unreachable!()
}

/// The working memory for the phases of a network.
pub fn room(alloc: Global, net: &Net) -> Result<Room, NoMemory>
    requires { IsValid net.now }
    ensures { IfOk result (λ room. room ≡ view_of net.now) }
{
    working::room_for(alloc, net)
}

/// The flow with nothing on any arc.
pub fn no_flow(alloc: Global, net: &Net) -> Result<Flow, NoMemory>
    ensures amounts { IfOk result (λ flow. flow.amounts.items ≡ replicate (length net.now.arcs.items) 0) }
    ensures within { IfOk result (IsWithin net.now) }
    ensures balanced { IfOk result (IsBalanced net.now) }
{
    Ok(Flow {
        amounts: zeros(alloc, net.arcs.len())?,
    })
}

/// So many zeros.
fn zeros(alloc: Global, count: usize) -> Result<Vec<u128>, NoMemory>
    ensures { IfOk result (λ list. list.items ≡ replicate count 0) }
{
    Ok(vec![in alloc; 0; count]?)
}
