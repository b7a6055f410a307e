//! More flow along one path.

ghost use Rattle.std.specs.Prelude.{◌≡◌, ℕ, ◌<◌, ◌≤◌, length, All};
ghost use Rattle.flow_net.specs.Network.{IsValid, IsWithin, IsBalanced, loads, flow_value};
ghost use Rattle.max_flow.specs.Path.{HasPath, HasRoom, LeadsFarther, room_of, start_of, end_of, pushed};

use flow_net::levels::Distances;
use flow_net::{Flow, Net};

/// A residual arc: along an arc of the network, or against it.
#[derive(Clone, Copy)]
pub struct Step {
    pub arc: usize,
    pub forward: bool,
}

/// Lets as much more go by a path as it has room for.
pub fn augment(net: &Net, flow: &mut Flow, found: &Distances, path: &[Step])
    requires valid { IsValid net.now }
    requires within { IsWithin net.now flow.old }
    requires balanced { IsBalanced net.now flow.old }
    requires path { HasPath net.now.arcs.items flow.old.amounts.items found.now path.now }
    ensures within { IsWithin net.now flow.new }
    ensures balanced { IsBalanced net.now flow.new }
    ensures more { flow_value net.now flow.old < flow_value net.now flow.new }
    ensures farther { LeadsFarther found.now (loads net.now flow.old) (loads net.now flow.new) }
{
    let amount = bottleneck(net, flow, path);
    for step in path {
        push(net, flow, *step, amount);
    }
}

/// The least room on a path.
fn bottleneck(net: &Net, flow: &Flow, path: &[Step]) -> u128
    requires within { IsWithin net.now flow.now }
    requires inside { All (λ step. step.arc < length net.now.arcs.items) path.now }
    requires room { All (HasRoom net.now.arcs.items flow.now.amounts.items) path.now }
    ensures some { 0 < result }
    ensures least { All (λ step. result ≤ room_of net.now.arcs.items flow.now.amounts.items step) path.now }
{
    let mut least = u128::MAX;
    for step in path {
        let room = spare(net, flow, *step);
        if room < least {
            least = room;
        }
    }
    least
}

/// How much more can go by a step.
fn spare(net: &Net, flow: &Flow, step: Step) -> u128
    requires within { IsWithin net.now flow.now }
    requires inside { step.arc < length net.now.arcs.items }
    ensures { result ≡ room_of net.now.arcs.items flow.now.amounts.items step }
{
    let amount = flow.amounts[step.arc];
    if step.forward {
        net.arcs[step.arc].cap - amount
    } else {
        amount
    }
}

/// Lets more go by a step.
fn push(net: &Net, flow: &mut Flow, step: Step, amount: u128)
    requires valid { IsValid net.now }
    requires inside { step.arc < length net.now.arcs.items }
    requires within { IsWithin net.now flow.old }
    requires room { amount ≤ room_of net.now.arcs.items flow.old.amounts.items step }
    ensures { flow.new.amounts.items ≡ pushed flow.old.amounts.items step amount }
{
    if step.forward {
        flow.amounts[step.arc] += amount;
    } else {
        flow.amounts[step.arc] -= amount;
    }
}

/// The node that a step leads to.
pub fn end(net: &Net, step: Step) -> u32
    requires { step.arc < length net.now.arcs.items }
    ensures { result ≡ end_of net.now.arcs.items step }
{
    let arc = net.arcs[step.arc];
    if step.forward { arc.to } else { arc.from }
}

/// The node that a step starts from.
pub fn start(net: &Net, step: Step) -> u32
    requires { step.arc < length net.now.arcs.items }
    ensures { result ≡ start_of net.now.arcs.items step }
{
    let arc = net.arcs[step.arc];
    if step.forward { arc.from } else { arc.to }
}
