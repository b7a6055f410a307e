//! Levels that meet in the lesser one, and that one node caps.
ghost use Rattle.std.specs.Prelude.{ℕ, ◌≡◌, ◌<◌, ◌==◌, IfOk, min, vec_len};
ghost use Rattle.dataflow.specs.FixedPoints.{ArcsWithin};
ghost use Rattle.dataflow.specs.Levels.{cap_laws, capped, least_laws};

use crate::nests::Numbering;
use dataflow::{Digraph, Meet, Transfer, solve};
use mc_num::NoMemory;
use std::alloc::Global;
use std::cell::Cell;
use std::marker::Model;

/// How much can come to a node.
#[derive(Drop)]
struct Level {
    value: u32,
}

impl Model for Level {
    ghost Value = { ℕ };

    ghost view = { λ level. level.value };
}

impl Meet for Level {
    ghost Alike = { λ x y. Unit {0} };

    ghost met = { min };

    ghost height_of = { λ x. x };

    fn meet(&mut self, other: &Self) -> bool {
        let falls = other.value < self.value;
        if falls {
            self.value = other.value;
        }
        falls
    }

    fn height(&self) -> u64 {
        self.value as u64
    }

    ghost laws = { least_laws };
}

/// A node that lets at most so much through, with the number of calls so far.
#[derive(Drop)]
struct Cap {
    node: u32,
    most: u32,
    calls: Cell<u32>,
}

impl Transfer<Level> for Cap {
    ghost Knows = { λ t n x. Unit {0} };

    ghost leaving = { λ t n x. capped (n == t.node) t.most x };

    fn leave(&self, node: u32, entry: &Level, exit: &mut Level) -> bool {
        self.calls.set(self.calls.get().saturating_add(1));
        let before = exit.value;
        exit.value = if node == self.node {
            entry.value.min(self.most)
        } else {
            entry.value
        };
        before != exit.value
    }

    ghost laws = { λ t. cap_laws (λ n. n == t.node) t.most };
}

/// A level for each node, from `least` on by the multiples of `rise` modulo the number of nodes.
fn rising(alloc: Global, nodes: u32, least: u32, rise: u32) -> Result<Vec<Level>, NoMemory>
    ensures { IfOk result (λ list. vec_len list ≡ nodes) }
{
    let multiples = Numbering {
        factor: rise,
        shift: 0,
    };
    let mut list = Vec::new(alloc);
    for node in 0..nodes {
        let value = least.saturating_add(multiples.number(node, nodes));
        list.push(Level { value })?;
    }
    Ok(list)
}

/// The calls where the node caps the level, and the levels at the start go up by `rise`.
fn calls(alloc: Global, graph: &Digraph, node: u32, rise: u32) -> Result<u32, NoMemory>
    requires { ArcsWithin graph.now.arcs.items graph.now.nodes }
{
    let cap = Cap {
        node,
        most: graph.nodes / 2,
        calls: Cell::new(0),
    };
    let entry = rising(alloc, graph.nodes, 0, rise)?;
    let exit = rising(alloc, graph.nodes, graph.nodes, 0)?;
    let _ = solve(alloc, graph, &cap, entry, exit)?;
    Ok(cap.calls.get())
}

/// The most calls for this node among several levels at the start.
fn most_for_node(alloc: Global, graph: &Digraph, node: u32) -> Result<u32, NoMemory>
    requires { ArcsWithin graph.now.arcs.items graph.now.nodes }
{
    let mut most = 0;
    for rise in [1, graph.nodes.saturating_sub(1), 313, 687, 7] {
        most = calls(alloc, graph, node, rise)?.max(most);
    }
    Ok(most)
}

/// The most calls of `leave` where the first, the middle or the last number caps the level.
pub fn most_calls(alloc: Global, graph: &Digraph) -> Result<u32, NoMemory>
    requires { ArcsWithin graph.now.arcs.items graph.now.nodes }
{
    let nodes = graph.nodes;
    let mut most = 0;
    for node in [0, nodes / 2, nodes.saturating_sub(1)] {
        most = most_for_node(alloc, graph, node)?.max(most);
    }
    Ok(most)
}
