//! A maximum flow of the needed part of a block network is one of the whole.
#![tactic(auto)]

ghost use Rattle.reduced_flows.specs.Flows.{ReducedFlowsAreMaximum};

/// The nodes of a block network that are wanted and not available, with the source and the sink, and the arcs between
/// them have its maximum flows: such a flow, with nothing on the other arcs, is a maximum flow of the whole network.
pub fn reduced_flows_are_maximum()
    ensures { ReducedFlowsAreMaximum }
{}
