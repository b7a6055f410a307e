//! The nodes that reach the sink by residual arcs, nearest first.

ghost use Rattle.std.specs.Prelude.{◌≡◌, ◌⊎◌, ℕ, ◌+◌, ◌^◌, ◌<◌, ◌≤◌, ◌↔◌, IfOk, IsTrue, true, false, length};
ghost use Rattle.flow_net.specs.Network.{IsValid, IsWithin, loads};
ghost use Rattle.flow_net.specs.Incidence.{IsIncidenceOf};
ghost use Rattle.flow_net.specs.Levels.{AreDistances, IsNearestFirst, Visiting, Answered, Keeps, Reaches, Attempts, is_reached, distance_of, order_of, unreached, HasNodes};

use crate::incidence::Incidence;
use crate::{Arc, Flow, Net};
use mc_num::NoMemory;
use std::alloc::Global;

/// Which nodes reach the sink by residual arcs, and by how few.
#[derive(Drop)]
pub struct Distances {
    /// Whether a node reaches the sink.
    pub reached: Vec<bool>,
    /// The fewest residual arcs from a node to the sink, 0 where there is no way.
    pub distance: Vec<u32>,
    /// The reached nodes, nearest first, and then places that mean nothing.
    pub order: Vec<u32>,
    /// How many nodes are reached.
    pub count: usize,
}

/// The fewest residual arcs from each node to the sink, by a search from the sink in breadth. Time and memory grow
/// with the number of nodes and arcs.
pub fn distances_to_sink(alloc: Global, net: &Net, flow: &Flow) -> Result<Distances, NoMemory>
    requires valid { IsValid net.now }
    requires within { IsWithin net.now flow.now }
    ensures distances { IfOk result (AreDistances net.now.nodes (loads net.now flow.now)) }
    ensures order { IfOk result IsNearestFirst }
    ensures small { IfOk result (λ found. (v : ℕ) → distance_of found v < net.now.nodes) }
{
    let incidence = Incidence::of(alloc, net)?;
    let mut found = Distances::new(alloc, net.nodes)?;
    found.search(net, flow, &incidence);
    Ok(found)
}

impl Distances {
    /// Places for so many nodes.
    pub fn new(alloc: Global, nodes: u32) -> Result<Distances, NoMemory>
        ensures { IfOk result (HasNodes nodes) }
    {
        Ok(Distances {
            reached: vec![in alloc; false; nodes as usize]?,
            distance: vec![in alloc; 0; nodes as usize]?,
            order: vec![in alloc; 0; nodes as usize]?,
            count: 0,
        })
    }

    /// Finds the fewest residual arcs from each node to the sink, going out from the sink in breadth. It takes no
    /// memory, and time in the number of nodes and arcs.
    pub fn search(&mut self, net: &Net, flow: &Flow, incidence: &Incidence)
        requires valid { IsValid net.now }
        requires within { IsWithin net.now flow.now }
        requires incidence { IsIncidenceOf net.now incidence.now }
        requires nodes { HasNodes net.now.nodes self.old }
        ensures distances { AreDistances net.now.nodes (loads net.now flow.now) self.new }
        ensures order { IsNearestFirst self.new }
        ensures small { (v : ℕ) → distance_of self.new v < net.now.nodes }
    {
        self.clear(net.nodes);
        self.reach(1, 0);
        let mut place = 0;
        while place < self.count {
            self.visit(net, flow, incidence, place);
            place += 1;
        }
    }

    /// Reaches no node.
    fn clear(&mut self, nodes: u32)
        requires { HasNodes nodes self.old }
        ensures nodes { HasNodes nodes self.new }
        ensures count { self.new.count ≡ 0 }
        ensures none { (v : ℕ) → (is_reached self.new v ≡ false) × (distance_of self.new v ≡ 0) }
    {
        self.count = 0;
        for node in 0..nodes as usize {
            self.reached[node] = false;
            self.distance[node] = 0;
        }
    }

    /// Reaches the nodes with a residual arc to the node at a place of the order.
    fn visit(&mut self, net: &Net, flow: &Flow, incidence: &Incidence, place: usize)
        requires valid { IsValid net.now }
        requires within { IsWithin net.now flow.now }
        requires incidence { IsIncidenceOf net.now incidence.now }
        requires visiting { Visiting net.now.nodes (loads net.now flow.now) place self.old }
        requires place { place < self.old.count }
        requires small { net.now.nodes < 2 ^ 32 }
        ensures { Visiting net.now.nodes (loads net.now flow.now) (place + 1) self.new }
    {
        let node = self.order[place];
        for index in &incidence.arcs_at[node as usize] {
            self.pass(net, flow, place, *index);
        }
    }

    /// Reaches what an arc leads from to the node at a place of the order.
    fn pass(&mut self, net: &Net, flow: &Flow, place: usize, index: usize)
        requires valid { IsValid net.now }
        requires within { IsWithin net.now flow.now }
        requires index { index < length net.now.arcs.items }
        requires visiting { Visiting net.now.nodes (loads net.now flow.now) place self.old }
        requires place { place < self.old.count }
        requires small { net.now.nodes < 2 ^ 32 }
        ensures visiting { Visiting net.now.nodes (loads net.now flow.now) place self.new }
        ensures answered { Answered (loads net.now flow.now) index (order_of self.old place) self.new }
        ensures keeps { Keeps self.old self.new }
    {
        let node = self.order[place];
        let distance = self.distance[node as usize] + 1;
        let arc = net.arcs[index];
        let amount = flow.amounts[index];
        self.reach_by(is_open_to(arc, amount, node), arc.from, distance);
        self.reach_by(is_taken_from(arc, amount, node), arc.to, distance);
    }

    /// Reaches a node at a distance, if there is a way and the node is not reached yet.
    fn reach_by(&mut self, has_way: bool, node: u32, distance: u32)
        requires nodes { HasNodes (length self.old.reached.items) self.old }
        requires node { node < length self.old.reached.items }
        requires room { self.old.count + unreached self.old ≤ length self.old.reached.items }
        ensures { Attempts has_way node distance self.old self.new }
    {
        if !has_way || self.reached[node as usize] {
            return;
        }
        self.reach(node, distance);
    }

    /// Reaches a node at a distance.
    fn reach(&mut self, node: u32, distance: u32)
        requires nodes { HasNodes (length self.old.reached.items) self.old }
        requires node { node < length self.old.reached.items }
        requires room { self.old.count + unreached self.old ≤ length self.old.reached.items }
        requires first { is_reached self.old node ≡ false }
        ensures { Reaches node distance self.old self.new }
    {
        self.reached[node as usize] = true;
        self.distance[node as usize] = distance;
        self.order[self.count] = node;
        self.count += 1;
    }
}

/// Whether more can go on an arc into a node.
fn is_open_to(arc: Arc, amount: u128, node: u32) -> bool
    ensures { IsTrue result ↔ ((arc.to ≡ node) × (amount < arc.cap)) }
{
    arc.to == node && amount < arc.cap
}

/// Whether some can be taken back on an arc out of a node.
fn is_taken_from(arc: Arc, amount: u128, node: u32) -> bool
    ensures { IsTrue result ↔ ((arc.from ≡ node) × (0 < amount)) }
{
    arc.from == node && 0 < amount
}
