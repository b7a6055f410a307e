//! Networks with capacities, and flows in them.
#![tactic(auto)]

pub mod incidence;
pub mod levels;
mod validity;

ghost use Rattle.std.specs.Prelude.{◌≡◌, ℕ, ◌+◌, ◌-◌, ◌*◌, ◌^◌, ◌<◌, ◌≤◌, length, slice_get, pos, ◌-ℤ◌, ◌+ℤ◌, IfSome};
ghost use Rattle.flow_net.specs.Laws.{ValueIsBelowSides, RanksShowTheLatestSide, NoWayIsMaximum, SinkSetIsLatest};
ghost use Rattle.flow_net.specs.Network.{IsValid, IsWithin, inflow, outflow, flow_value, loads};

pub use validity::{is_valid, is_within};

/// An arc of a network.
#[derive(Clone, Copy, Debug, PartialEq, Eq)]
pub struct Arc {
    pub from: u32,
    pub to: u32,
    pub cap: u128,
}

/// A network: node 0 is the source and node 1 the sink.
#[derive(Drop)]
pub struct Net {
    pub nodes: u32,
    pub arcs: Vec<Arc>,
}

/// What flows on each arc of a network, in the order of its arcs.
#[derive(Drop)]
pub struct Flow {
    pub amounts: Vec<u128>,
}

/// No flow is worth more than a side lets in.
pub fn value_is_below_sides()
    ensures { ValueIsBelowSides }
{}

/// A side that a flow's value meets, and from which ranks fall to the sink, is the latest.
pub fn ranks_show_the_latest_side()
    ensures { RanksShowTheLatestSide }
{}

/// A flow is a maximum one where no residual arcs lead from the source to the sink.
pub fn no_way_is_maximum()
    ensures { NoWayIsMaximum }
{}

/// The nodes that reach the sink by residual arcs of a maximum flow are the latest side.
pub fn sink_set_is_latest()
    ensures { SinkSetIsLatest }
{}

/// What flows out of the source.
pub fn value(net: &Net, flow: &Flow) -> u128
    requires valid { IsValid net.now }
    requires within { IsWithin net.now flow.now }
    ensures { result ≡ flow_value net.now flow.now }
{
    outflow_of(net, flow, 0)
}

/// What enters a node less what leaves it.
pub fn excess(net: &Net, flow: &Flow, node: u32) -> i128
    requires valid { IsValid net.now }
    requires within { IsWithin net.now flow.now }
    ensures { result ≡ pos (inflow (loads net.now flow.now) node) -ℤ pos (outflow (loads net.now flow.now) node) }
{
    inflow_of(net, flow, node) as i128 - outflow_of(net, flow, node) as i128
}

/// What can be added to an arc's amount, and what can be taken back.
pub fn residual(net: &Net, flow: &Flow, arc: u32) -> (u128, u128)
    requires valid { IsValid net.now }
    requires within { IsWithin net.now flow.now }
    requires arc { arc < length net.now.arcs.items }
    ensures { IfSome (slice_get (loads net.now flow.now) arc) (λ l. (result.0 + l.1 ≡ l.0.cap) × (result.1 ≡ l.1)) }
{
    let amount = flow.amounts[arc as usize];
    (net.arcs[arc as usize].cap - amount, amount)
}

/// What enters a node.
fn inflow_of(net: &Net, flow: &Flow, node: u32) -> u128
    requires valid { IsValid net.now }
    requires within { IsWithin net.now flow.now }
    ensures sum { result ≡ inflow (loads net.now flow.now) node }
    ensures small { result < 2 ^ 120 }
{
    let mut sum = 0;
    for (index, arc) in net.arcs.iter().enumerate() {
        if arc.to == node {
            sum += flow.amounts[index];
        }
    }
    sum
}

/// What leaves a node.
fn outflow_of(net: &Net, flow: &Flow, node: u32) -> u128
    requires valid { IsValid net.now }
    requires within { IsWithin net.now flow.now }
    ensures sum { result ≡ outflow (loads net.now flow.now) node }
    ensures small { result < 2 ^ 120 }
{
    let mut sum = 0;
    for (index, arc) in net.arcs.iter().enumerate() {
        if arc.from == node {
            sum += flow.amounts[index];
        }
    }
    sum
}

#[cfg(test)]
mod tests;
