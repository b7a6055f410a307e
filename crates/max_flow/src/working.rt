//! The working memory of level phases.

ghost use Rattle.std.specs.Prelude.{◌≡◌, ℕ, ◌+◌, ◌<◌, IfOk, true, false, length};
ghost use Rattle.flow_net.specs.Network.{IsValid, IsWithin, IsBalanced, IsMaximum, ReachesSink, loads};
ghost use Rattle.max_flow.specs.Path.{RisesAbove};
ghost use Rattle.max_flow.specs.Working.{NetOfRoom, view_of};

use crate::blocking::{Marks, fill};
use crate::pushing::Step;
use crate::steps::Steps;
use flow_net::incidence::Incidence;
use flow_net::levels::Distances;
use flow_net::{Arc, Flow, Net};
use mc_num::NoMemory;
use std::alloc::Global;
use std::marker::Model;
use std::sync::ledger::Ledger;

/// The working memory for the level phases of one network.
#[derive(Drop)]
pub struct Room {
    nodes: u32,
    arcs: Vec<Arc>,
    incidence: Incidence,
    found: Distances,
    marks: Marks,
    path: Vec<Step>,
}

impl Model for Room {
    ghost use Rattle.std.specs.Prelude.{◌≡◌, length};
    ghost use Rattle.flow_net.specs.Levels.{HasNodes};
    ghost use Rattle.flow_net.specs.Incidence.{HoldFirst};
    ghost use Rattle.max_flow.specs.Marking.{HasMarks};
    ghost use Rattle.max_flow.specs.Working.{NetOfRoom};

    ghost Value = { NetOfRoom };

    ghost view = { λ r. record { nodes = r.nodes; arcs = r.arcs.items } };

    ghost invariant = { λ r. HoldFirst r.nodes r.arcs.items (length r.arcs.items) r.incidence.arcs_at.items × HasNodes r.nodes r.found × HasMarks r.nodes r.marks × (length r.path.items ≡ r.nodes) };
}

/// The working memory for the phases of a network.
pub fn room_for(alloc: Global, net: &Net) -> Result<Room, NoMemory>
    requires { IsValid net.now }
    ensures { IfOk result (λ room. room ≡ view_of net.now) }
{
    Ok(Room {
        nodes: net.nodes,
        arcs: Vec::from_slice(alloc, &net.arcs)?,
        incidence: Incidence::of(alloc, net)?,
        found: Distances::new(alloc, net.nodes)?,
        marks: Marks {
            dead: vec![in alloc; false; net.nodes as usize]?,
            next: vec![in alloc; 0; net.nodes as usize]?,
        },
        path: vec![in alloc; Step {
            arc: 0,
            forward: true
        }; net.nodes as usize]?,
    })
}

/// Fills the ways of the fewest residual arcs from the source to the sink, and says whether there were any.
pub fn phase<L: Ledger>(net: &Net, flow: &mut Flow, room: &mut Room, steps: &mut Steps<L>) -> bool
    requires valid { IsValid net.now }
    requires within { IsWithin net.now flow.old }
    requires balanced { IsBalanced net.now flow.old }
    requires room { room.old ≡ view_of net.now }
    ensures room { room.new ≡ room.old }
    ensures tick { steps.new ≡ steps.old + 1 }
    ensures within { IsWithin net.now flow.new }
    ensures balanced { IsBalanced net.now flow.new }
    ensures farther { result ≡ true → RisesAbove (loads net.now flow.old) (loads net.now flow.new) }
    ensures near { result ≡ true → (n : ℕ) × (n < net.now.nodes) × ReachesSink (loads net.now flow.old) n 0 }
    ensures last { result ≡ false → (flow.new ≡ flow.old) × IsMaximum net.now flow.old }
{
    steps.tick();
    fill(
        net,
        flow,
        &room.incidence,
        &mut room.found,
        &mut room.marks,
        &mut room.path,
    )
}
