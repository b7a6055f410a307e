//! Networks of four kinds, of any size, with capacities from 1 to 1000 that a linear congruence draws.

ghost use Rattle.std.specs.Prelude.{◌<◌, ◌^◌, ◌≤◌};

use flow_net::{Arc, Net};
use mc_num::NoMemory;
use std::alloc::Global;

/// The largest capacity.
const MOST_CAPACITY: u32 = 1000;

/// The shape of a network.
#[derive(Clone, Copy)]
pub enum Kind {
    /// One arc after another from the source to the sink.
    Chain,
    /// Two chains, with rungs between them that lead across by turns one way and the other.
    Ladder,
    /// Rows of nodes, with arcs to the right and down, from the source on the left to the sink on the right.
    Grid,
    /// Arcs between nodes that are drawn, four for each node.
    Random,
}

/// A network while it is built.
#[derive(Drop)]
struct Builder {
    net: Net,
    /// What the congruence has drawn last.
    drawn: u64,
}

/// The network of a kind with about so many arcs.
pub fn network(alloc: Global, kind: Kind, arcs: u32) -> Result<Net, NoMemory>
    requires { arcs < 2 ^ 24 }
{
    match kind {
        Kind::Chain => chain(alloc, arcs),
        Kind::Ladder => ladder(alloc, arcs / 3),
        Kind::Grid => grid(alloc, arcs / 2),
        Kind::Random => random(alloc, arcs),
    }
}

/// A chain of so many arcs, or of one.
fn chain(alloc: Global, arcs: u32) -> Result<Net, NoMemory>
    requires { arcs < 2 ^ 24 }
{
    let mut builder = Builder::new(alloc, arcs.max(1) + 1);
    let mut node = 0;
    for next in 2..arcs + 1 {
        builder.join(node, next)?;
        node = next;
    }
    builder.join(node, 1)?;
    Ok(builder.net)
}

/// A ladder of so many rungs.
fn ladder(alloc: Global, rungs: u32) -> Result<Net, NoMemory>
    requires { rungs < 2 ^ 24 }
{
    let mut builder = Builder::new(alloc, 2 * rungs + 2);
    let mut left = 0;
    let mut right = 0;
    for rung in 1..rungs + 1 {
        let next_left = 2 * rung;
        let next_right = 2 * rung + 1;
        builder.join(left, next_left)?;
        builder.join(right, next_right)?;
        if rung % 2 == 0 {
            builder.join(next_left, next_right)?;
        } else {
            builder.join(next_right, next_left)?;
        }
        left = next_left;
        right = next_right;
    }
    builder.join(left, 1)?;
    builder.join(right, 1)?;
    Ok(builder.net)
}

/// A grid of so many nodes, about as high as it is wide.
fn grid(alloc: Global, nodes: u32) -> Result<Net, NoMemory>
    requires { nodes < 2 ^ 24 }
{
    let mut builder = Builder::new(alloc, nodes + 2);
    let width = nodes.isqrt().max(1);
    for place in 0..nodes {
        builder.join_cell(place, nodes, width)?;
    }
    Ok(builder.net)
}

/// So many arcs between nodes that are drawn.
fn random(alloc: Global, arcs: u32) -> Result<Net, NoMemory>
    requires { arcs < 2 ^ 24 }
{
    let nodes = arcs / 4 + 2;
    let mut builder = Builder::new(alloc, nodes);
    for _arc in 0..arcs {
        let from = builder.draw(nodes);
        let to = builder.draw(nodes);
        builder.join(if from == 1 { 0 } else { from }, to.max(1))?;
    }
    Ok(builder.net)
}

impl Builder {
    /// So many nodes without arcs.
    fn new(alloc: Global, nodes: u32) -> Builder {
        Builder {
            net: Net {
                nodes,
                arcs: Vec::new(alloc),
            },
            drawn: 1,
        }
    }

    /// A number below a bound, by the congruence of Knuth's MMIX.
    fn draw(&mut self, bound: u32) -> u32
        requires { 0 < bound }
        ensures { result < bound }
    {
        self.drawn = self
            .drawn
            .wrapping_mul(6364136223846793005)
            .wrapping_add(1442695040888963407);
        ((self.drawn >> 33) % bound as u64) as u32
    }

    /// One more arc, with a capacity that is drawn.
    fn join(&mut self, from: u32, to: u32) -> Result<(), NoMemory> {
        let cap = self.draw(MOST_CAPACITY) as u128 + 1;
        self.net.arcs.push(Arc { from, to, cap })?;
        Ok(())
    }

    /// The arcs of one node of a grid: into it from the source at the left side, to the right, and down.
    fn join_cell(&mut self, place: u32, nodes: u32, width: u32) -> Result<(), NoMemory>
        requires place { place < nodes }
        requires nodes { nodes < 2 ^ 24 }
        requires some { 0 < width }
        requires width { width ≤ 2 ^ 24 }
    {
        let node = place + 2;
        if place % width == 0 {
            self.join(0, node)?;
        }
        if (place + 1) % width == 0 || place + 1 == nodes {
            self.join(node, 1)?;
        } else {
            self.join(node, node + 1)?;
        }
        if place + width < nodes {
            self.join(node, node + width)?;
        }
        Ok(())
    }
}
