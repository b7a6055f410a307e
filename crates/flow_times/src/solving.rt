//! A maximum flow of a network and its latest cut, and how many phases the flow takes.

ghost use Rattle.std.specs.Prelude.{◌≡◌, ◌<◌};
ghost use Rattle.flow_net.specs.Network.{IsValid};

use flow_net::{Net, is_valid, value};
use latest_cut::latest;
use max_flow::{Steps, max_flow, no_flow, phase, room};
use mc_num::NoMemory;
use std::alloc::Global;
use std::marker::Brand;
use std::sync::ledger::{Blank, Ledger};

/// What is shown of a maximum flow and its cut.
#[derive(Clone, Copy)]
pub struct Solved {
    pub value: u128,
    /// How many nodes are on the sink's side.
    pub sink_side: usize,
}

/// The maximum flow and the latest cut of a network, if it is valid.
pub fn solve(alloc: Global, net: &Net) -> Result<Option<Solved>, NoMemory> {
    if !is_valid(net) {
        return Ok(None);
    }
    Ok(Some(solve_on::<Brand>(alloc, Blank::new(1), net)?))
}

fn solve_on<L: Ledger>(alloc: Global, blank: Blank, net: &Net) -> Result<Solved, NoMemory>
    requires name { blank.name ≡ L.name }
    requires parts { blank.parts ≡ L.parts }
    requires some { 0 < blank.parts }
    requires valid { IsValid net.now }
{
    let mut steps = Steps::<L>::new(blank);
    let flow = max_flow(alloc, net, &mut steps)?;
    let cut = latest(alloc, net, &flow)?;
    Ok(Solved {
        value: value(net, &flow),
        sink_side: cut.sink_side.iter().filter(|is_inside| **is_inside).count(),
    })
}

/// How many phases the maximum flow of a network takes, if it is valid.
pub fn phases(alloc: Global, net: &Net) -> Result<Option<u32>, NoMemory> {
    if !is_valid(net) {
        return Ok(None);
    }
    Ok(Some(phases_on::<Brand>(alloc, Blank::new(1), net)?))
}

fn phases_on<L: Ledger>(alloc: Global, blank: Blank, net: &Net) -> Result<u32, NoMemory>
    requires name { blank.name ≡ L.name }
    requires parts { blank.parts ≡ L.parts }
    requires some { 0 < blank.parts }
    requires valid { IsValid net.now }
{
    let mut steps = Steps::<L>::new(blank);
    let mut room = room(alloc, net)?;
    let mut flow = no_flow(alloc, net)?;
    for round in 0..net.nodes {
        if !phase(net, &mut flow, &mut room, &mut steps) {
            return Ok(round + 1);
        }
    }
    Ok(net.nodes)
}
