//! The nodes of a graph in postorder.

ghost use Rattle.std.specs.Prelude.{◌≡◌, ℕ, ◌<◌, false, All, Contains, IfOk, replicate};
ghost use Rattle.dataflow.specs.FixedPoints.{ArcsWithin};

use crate::graph::{Digraph, ends_by_node};
use std::alloc::{AllocError, Global};

/// Where a walk in depth stands.
#[derive(Drop)]
struct Walk {
    /// For each node, whether it was entered.
    entered: Vec<bool>,
    /// For each node the ends of the arcs from it that weren't followed yet.
    ends: Vec<Vec<u32>>,
    /// The nodes that were entered and not left, each below those that were entered from it.
    path: Vec<u32>,
    /// The nodes that were left, in this order.
    order: Vec<u32>,
}

impl Walk {
    ghost use Rattle.std.specs.Prelude.{◌≤◌, ◌++◌, ◌∷◌, [], length, OnOk};
    ghost use Rattle.dataflow.specs.Walks.{IsEntered, IsWalking, IsWalkingWith, Keeps, work};

    fn into_order(self) -> Vec<u32>
        ensures { result ≡ self.order }
    {
        let Walk {
            entered: _,
            ends: _,
            path: _,
            order,
        } = self;
        order
    }

    /// Enters a node, if it wasn't entered yet.
    fn enter(&mut self, node: u32) -> Result<(), AllocError>
        requires node { node < length self.old.entered.items }
        requires walking { IsWalking self.old }
        ensures walking { OnOk result (IsWalking self.new) }
        ensures keeps { OnOk result (Keeps self.old self.new) }
        ensures entered { OnOk result (IsEntered self.new node) }
        ensures work { OnOk result (work self.new ≤ work self.old) }
    {
        if !self.entered[node as usize] {
            self.entered[node as usize] = true;
            self.path.push(node)?;
        }
        Ok(())
    }

    /// Follows one more arc from the node, or leaves it where all were followed.
    fn step(&mut self, node: u32) -> Result<(), AllocError>
        requires node { node < length self.old.entered.items }
        requires walking { IsWalkingWith node self.old }
        ensures walking { OnOk result (IsWalking self.new) }
        ensures keeps { OnOk result (Keeps self.old self.new) }
        ensures work { OnOk result (work self.new ≤ work self.old) }
    {
        match self.ends[node as usize].pop() {
            Some(end) => {
                self.path.push(node)?;
                self.enter(end)
            }
            None => Ok(self.order.push(node)?),
        }
    }

    /// Walks on until all nodes that were entered are left.
    fn leave_all(&mut self) -> Result<(), AllocError>
        requires { IsWalking self.old }
        ensures walking { OnOk result (IsWalking self.new) }
        ensures keeps { OnOk result (Keeps self.old self.new) }
        ensures left { OnOk result ((n : ℕ) → IsEntered self.new n → Contains self.new.order.items n) }
    {
        while let Some(node) = self.path.pop() {
            self.step(node)?;
        }
        Ok(())
    }
}

/// A clear flag for each node.
fn clear_flags(alloc: Global, nodes: u32) -> Result<Vec<bool>, AllocError>
    ensures { IfOk result (λ flags. flags.items ≡ replicate nodes false) }
{
    vec![in alloc; false; nodes as usize]
}

/// The nodes in the order in which a walk in depth leaves them. It begins at node 0, and goes on at the first node that it
/// didn't reach, until there is none. So each node stands before those that lead to it, but for arcs that close a loop. Time
/// and memory are linear in nodes and arcs.
pub(crate) fn postorder(alloc: Global, graph: &Digraph) -> Result<Vec<u32>, AllocError>
    requires { ArcsWithin graph.now.arcs.items graph.now.nodes }
    ensures each { IfOk result (λ list. (n : ℕ) → n < graph.now.nodes → Contains list.items n) }
    ensures below { IfOk result (λ list. All (λ n. n < graph.now.nodes) list.items) }
{
    let ends = ends_by_node(alloc, graph.nodes, &graph.arcs)?;
    let entered = clear_flags(alloc, graph.nodes)?;
    let mut walk = Walk {
        entered,
        ends,
        path: Vec::new(alloc),
        order: Vec::new(alloc),
    };
    for node in 0..graph.nodes {
        walk.enter(node)?;
        walk.leave_all()?;
    }
    Ok(walk.into_order())
}
