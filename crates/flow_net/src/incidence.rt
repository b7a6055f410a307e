//! The arcs at each node of a network.

ghost use Rattle.std.specs.Prelude.{◌≡◌, ℕ, ◌<◌, [], IfOk, OnOk, length};
ghost use Rattle.flow_net.specs.Incidence.{arcs_in};

use crate::Net;
use mc_num::NoMemory;
use std::alloc::Global;

/// The arcs at each node of a network, each by its place in the network's list.
#[derive(Drop)]
pub struct Incidence {
    pub arcs_at: Vec<Vec<usize>>,
}

impl Incidence {
    ghost use Rattle.flow_net.specs.Network.{IsValid};
    ghost use Rattle.flow_net.specs.Incidence.{IsIncidenceOf, AddsArc};

    /// The arcs that begin or end at each node. Time and memory grow with the number of nodes and arcs.
    pub fn of(alloc: Global, net: &Net) -> Result<Incidence, NoMemory>
        requires { IsValid net.now }
        ensures { IfOk result (IsIncidenceOf net.now) }
    {
        let mut incidence = Incidence {
            arcs_at: no_arcs(alloc, net.nodes)?,
        };
        for index in 0..net.arcs.len() {
            let arc = net.arcs[index];
            incidence.add(arc.from, index)?;
            incidence.add(arc.to, index)?;
        }
        Ok(incidence)
    }

    /// One more arc at a node.
    fn add(&mut self, node: u32, index: usize) -> Result<(), NoMemory>
        requires { node < length self.old.arcs_at.items }
        ensures { OnOk result (AddsArc node index self.old self.new) }
    {
        self.arcs_at[node as usize].push(index)?;
        Ok(())
    }
}

/// An empty list for each node.
fn no_arcs(alloc: Global, nodes: u32) -> Result<Vec<Vec<usize>>, NoMemory>
    ensures len { IfOk result (λ lists. length lists.items ≡ nodes) }
    ensures none { IfOk result (λ lists. (v : ℕ) → arcs_in lists.items v ≡ []) }
{
    let mut lists = Vec::new(alloc);
    for _node in 0..nodes {
        lists.push(Vec::new(alloc))?;
    }
    Ok(lists)
}
