//! How often `leave` is called while flags and levels are solved on chains and on nests of loops.
#![tactic(auto)]

mod flags;
mod levels;
mod nests;

use mc_num::NoMemory;
use nests::Nest;
use std::alloc::Global;
use std::io;

const NESTS: [Nest; 6] = [
    Nest {
        nodes: 1000,
        loops: 0,
    },
    Nest {
        nodes: 10_000,
        loops: 0,
    },
    Nest {
        nodes: 100,
        loops: 8,
    },
    Nest {
        nodes: 1000,
        loops: 8,
    },
    Nest {
        nodes: 10_000,
        loops: 8,
    },
    Nest {
        nodes: 100_000,
        loops: 8,
    },
];

// The most calls for one nest, and the number of its arcs.
#[derive(Clone, Copy)]
struct Row {
    arcs: u64,
    flags: u32,
    levels: u32,
}

fn count_calls(alloc: Global, nest: Nest) -> Result<Row, NoMemory> {
    let mut row = Row {
        arcs: 0,
        flags: 0,
        levels: 0,
    };
    for numbering in nest.numberings() {
        let graph = nest.graph(alloc, numbering)?;
        row.arcs = graph.arcs.len() as u64;
        row.flags = row.flags.max(flags::most_calls(alloc, &graph)?);
        row.levels = row.levels.max(levels::most_calls(alloc, &graph)?);
    }
    Ok(row)
}

// The calls for each thousand nodes and arcs, rounded up.
fn for_a_thousand(calls: u32, nodes: u32, arcs: u64) -> u64 {
    let size = arcs.saturating_add(u64::from(nodes)).max(1);
    (u64::from(calls) * 1000).div_ceil(size)
}

fn main(rt: HostRuntime) -> io::Result<()> {
    println!(rt; "loops  nodes   arcs   flags  for 1000  levels  for 1000")?;
    for nest in NESTS {
        let Nest { nodes, loops } = nest;
        let Row {
            arcs,
            flags,
            levels,
        } = count_calls(rt.alloc(), nest).or(Err(io::ErrorKind::OutOfMemory))?;
        let of_flags = for_a_thousand(flags, nodes, arcs);
        let of_levels = for_a_thousand(levels, nodes, arcs);
        println!(rt;
            "{loops:>5} {nodes:>6} {arcs:>6} {flags:>7} {of_flags:>9} {levels:>7} {of_levels:>9}"
        )?;
    }
    Ok(())
}
