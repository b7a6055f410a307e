//! Flags that one node clears.
ghost use Rattle.std.specs.Prelude.{◌≡◌, ◌<◌, ◌==◌, ◌&&◌, false, not, IfOk, vec_len};
ghost use Rattle.dataflow.specs.FixedPoints.{ArcsWithin};
ghost use Rattle.dataflow.specs.Marks.{kept_laws};

use dataflow::{Digraph, Flag, Transfer, solve};
use mc_num::NoMemory;
use std::alloc::Global;
use std::cell::Cell;

/// A node that clears the flag, with the number of calls so far.
#[derive(Drop)]
struct Clearing {
    node: u32,
    calls: Cell<u32>,
}

impl Transfer<Flag> for Clearing {
    ghost Knows = { λ t n x. Unit {0} };

    ghost leaving = { λ t n x. record { set = not (n == t.node) && x.set } };

    fn leave(&self, node: u32, entry: &Flag, exit: &mut Flag) -> bool {
        self.calls.set(self.calls.get().saturating_add(1));
        let set = node != self.node && entry.set;
        let changed = set != exit.set;
        exit.set = set;
        changed
    }

    ghost laws = { λ t. kept_laws (λ n. false) (λ n. n == t.node) };
}

/// A flag for each node, set but for node 0.
fn starts(alloc: Global, nodes: u32) -> Result<Vec<Flag>, NoMemory>
    ensures { IfOk result (λ list. vec_len list ≡ nodes) }
{
    let mut list = Vec::new(alloc);
    for node in 0..nodes {
        list.push(Flag { set: node > 0 })?;
    }
    Ok(list)
}

fn calls(alloc: Global, graph: &Digraph, node: u32) -> Result<u32, NoMemory>
    requires { ArcsWithin graph.now.arcs.items graph.now.nodes }
{
    let clearing = Clearing {
        node,
        calls: Cell::new(0),
    };
    let entry = starts(alloc, graph.nodes)?;
    let exit = starts(alloc, graph.nodes)?;
    let _ = solve(alloc, graph, &clearing, entry, exit)?;
    Ok(clearing.calls.get())
}

/// The most calls of `leave` where the first, the middle, the last number or no node clears the flag.
pub fn most_calls(alloc: Global, graph: &Digraph) -> Result<u32, NoMemory>
    requires { ArcsWithin graph.now.arcs.items graph.now.nodes }
{
    let nodes = graph.nodes;
    let mut most = 0;
    for node in [0, nodes / 2, nodes.saturating_sub(1), nodes] {
        most = calls(alloc, graph, node)?.max(most);
    }
    Ok(most)
}
