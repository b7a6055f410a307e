//! The part of a network that is needed.
ghost use Rattle.std.specs.Prelude.{◌≡◌, ◌<◌, ◌^◌, All, IfOk, filter, filter_map, length};
ghost use Rattle.std.specs.List.{range_with_len};
ghost use Rattle.flow_net.specs.Network.{IsValid};
ghost use Rattle.reduction.specs.Reduced.{AreNumbers, IsReduced, is_flagged, is_needed, is_renumbered, renumbered};

use crate::building::BlockNet;
use flow_net::{Arc, Net};
use local_sets::Reach;
use mc_num::NoMemory;
use std::alloc::Global;

/// A part of a network, with the number that each of its nodes and arcs has in the whole.
#[derive(Drop)]
pub struct Reduced {
    pub net: Net,
    pub node_of: Vec<u32>,
    pub arc_of: Vec<u32>,
}

/// The numbers of the nodes that are kept, and for each node of the whole its number among these, if it is kept.
#[derive(Drop)]
struct Nodes {
    kept: Vec<u32>,
    numbers: Vec<Option<u32>>,
}

/// The arcs that are kept, and the number of each in the whole.
#[derive(Drop)]
struct Arcs {
    kept: Vec<Arc>,
    arc_of: Vec<u32>,
}

/// The flag at this index; `false` behind the last.
fn is_flagged(flags: &[bool], index: u32) -> bool
    ensures { result ≡ is_flagged flags.now index }
{
    flags.get(index as usize).copied().unwrap_or(false)
}

/// Whether a node is the source or the sink, or wanted and not available.
fn is_needed(reach: &Reach, node: u32) -> bool
    ensures { result ≡ is_needed reach.now node }
{
    match node.checked_sub(2) {
        None => true,
        Some(end) => is_flagged(&reach.wanted, end) && !is_flagged(&reach.available, end),
    }
}

/// The nodes of a network that are needed.
fn needed_nodes(alloc: Global, count: u32, reach: &Reach) -> Result<Nodes, NoMemory>
    ensures numbers { IfOk result (λ nodes. AreNumbers reach.now count nodes.kept.items nodes.numbers.items) }
    ensures few { IfOk result (λ nodes. length nodes.kept.items < 2 ^ 32) }
{
    let mut kept = Vec::new(alloc);
    let mut numbers = Vec::new(alloc);
    for node in 0..count {
        if is_needed(reach, node) {
            numbers.push(Some(kept.len() as u32))?;
            kept.push(node)?;
        } else {
            numbers.push(None)?;
        }
    }
    Ok(Nodes { kept, numbers })
}

/// The arc with the new numbers of its ends, if both are kept.
fn renumbered(arc: Arc, numbers: &[Option<u32>]) -> Option<Arc>
    requires from { arc.from < length numbers.now }
    requires to { arc.to < length numbers.now }
    ensures { result ≡ renumbered numbers.now arc }
{
    Some(Arc {
        from: numbers[arc.from as usize]?,
        to: numbers[arc.to as usize]?,
        cap: arc.cap,
    })
}

/// The arcs between nodes that are kept, with the new numbers of these.
fn needed_arcs(alloc: Global, arcs: &[Arc], numbers: &[Option<u32>]) -> Result<Arcs, NoMemory>
    requires few { length arcs.now < 2 ^ 32 }
    requires within { All (λ a. (a.from < length numbers.now) × (a.to < length numbers.now)) arcs.now }
    ensures kept { IfOk result (λ needed. needed.kept.items ≡ filter_map (renumbered numbers.now) arcs.now) }
    ensures numbers { IfOk result (λ needed. needed.arc_of.items ≡ filter (is_renumbered numbers.now arcs.now) (range_with_len 0 (length arcs.now))) }
{
    let mut kept = Vec::new(alloc);
    let mut arc_of = Vec::new(alloc);
    for (number, arc) in arcs.iter().enumerate() {
        match renumbered(*arc, numbers) {
            Some(new) => {
                kept.push(new)?;
                arc_of.push(number as u32)?;
            }
            None => {}
        }
    }
    Ok(Arcs { kept, arc_of })
}

/// Source, sink and exactly the nodes of a block network that are wanted and not available, with the arcs between
/// them, all in the order of the network. It takes linear time. `NoMemory` where an allocation was refused.
pub fn reduce(alloc: Global, full: &BlockNet, reach: &Reach) -> Result<Reduced, NoMemory>
    requires valid { IsValid full.now.net }
    requires few { length full.now.net.arcs.items < 2 ^ 32 }
    ensures reduced { IfOk result (λ reduced. IsReduced full.now.net reach.now reduced) }
    ensures valid { IfOk result (λ reduced. IsValid reduced.net) }
{
    let nodes = needed_nodes(alloc, full.net.nodes, reach)?;
    let arcs = needed_arcs(alloc, &full.net.arcs, &nodes.numbers)?;
    Ok(Reduced {
        net: Net {
            nodes: nodes.kept.len() as u32,
            arcs: arcs.kept,
        },
        node_of: nodes.kept,
        arc_of: arcs.arc_of,
    })
}
