//! Chains and nests of loops, numbered in several ways.
ghost use Rattle.std.specs.Prelude.{◌<◌, ◌≡◌, IfOk, OnOk};
ghost use Rattle.dataflow.specs.FixedPoints.{ArcsWithin};

use dataflow::Digraph;
use mc_num::NoMemory;
use std::alloc::Global;

/// A chain of nodes with so many loops in one another round its middle, but no more loops than nodes.
#[derive(Clone, Copy)]
pub struct Nest {
    pub nodes: u32,
    pub loops: u32,
}

/// The node at a place of the chain has the number place * factor + shift, modulo the number of nodes.
#[derive(Clone, Copy)]
pub struct Numbering {
    pub factor: u32,
    pub shift: u32,
}

impl Numbering {
    /// The number of the node at a place.
    pub fn number(self, place: u32, nodes: u32) -> u32
        requires { 0 < nodes }
        ensures { result < nodes }
    {
        let number = u64::from(place)
            .wrapping_mul(u64::from(self.factor))
            .wrapping_add(u64::from(self.shift));
        (number % u64::from(nodes)) as u32
    }

    /// Adds the arcs from each node of the chain to the next.
    fn add_chain(self, nodes: u32, arcs: &mut Vec<(u32, u32)>) -> Result<(), NoMemory>
        requires { ArcsWithin arcs.old.items nodes }
        ensures { OnOk result (ArcsWithin arcs.new.items nodes) }
    {
        for place in 1..nodes {
            arcs.push((self.number(place - 1, nodes), self.number(place, nodes)))?;
        }
        Ok(())
    }

    /// Adds an arc for each loop, from a node as far from the end as the one where it leads is from the start.
    fn add_loops(self, nest: Nest, arcs: &mut Vec<(u32, u32)>) -> Result<(), NoMemory>
        requires { ArcsWithin arcs.old.items nest.nodes }
        ensures { OnOk result (ArcsWithin arcs.new.items nest.nodes) }
    {
        let Nest { nodes, loops } = nest;
        for depth in 0..loops.min(nodes) {
            let last = nodes - 1 - depth;
            arcs.push((self.number(last, nodes), self.number(depth, nodes)))?;
        }
        Ok(())
    }
}

impl Nest {
    /// Forwards, backwards, and two ways that scatter the chain.
    pub fn numberings(self) -> [Numbering; 4] {
        let last = self.nodes.saturating_sub(1);
        [
            Numbering {
                factor: 1,
                shift: 0,
            },
            Numbering {
                factor: last,
                shift: last,
            },
            Numbering {
                factor: 377,
                shift: 0,
            },
            Numbering {
                factor: 377,
                shift: self.nodes / 2,
            },
        ]
    }

    /// The nest as a graph. `NoMemory` where an allocation was refused.
    pub fn graph(self, alloc: Global, numbering: Numbering) -> Result<Digraph, NoMemory>
        ensures nodes { IfOk result (λ graph. graph.nodes ≡ self.nodes) }
        ensures within { IfOk result (λ graph. ArcsWithin graph.arcs.items self.nodes) }
    {
        let mut arcs = Vec::new(alloc);
        numbering.add_chain(self.nodes, &mut arcs)?;
        numbering.add_loops(self, &mut arcs)?;
        Ok(Digraph {
            nodes: self.nodes,
            arcs,
        })
    }
}
