//! Small graphs, solved by the worklist and by plain passes.

ghost use Rattle.std.specs.Prelude.{◌≡◌, ◌<◌, ◌==◌, ◌&&◌, ◌||◌, IfOk, IsTrue, not, vec_len};
ghost use Rattle.dataflow.specs.Marks.{kept_laws};
ghost use Rattle.dataflow.specs.FixedPoints.{ArcsWithin};

mod levels;

use crate::{Digraph, Flag, Solution, Transfer, solve};
use std::alloc::{AllocError, Global};
use std::process::Abort;
use std::test::Fail;

/// A node that sets the flag and one that clears it.
#[derive(Clone, Copy)]
struct Marks {
    sets: u32,
    clears: u32,
}

impl Marks {
    fn leaves(&self, node: u32, set: bool) -> bool
        ensures { result ≡ ((node == self.now.sets) || (not (node == self.now.clears) && set)) }
    {
        node == self.sets || (node != self.clears && set)
    }
}

impl Transfer<Flag> for Marks {
    ghost Knows = { λ t n x. Unit {0} };

    ghost leaving = { λ t n x. record { set = (n == t.sets) || (not (n == t.clears) && x.set) } };

    fn leave(&self, node: u32, entry: &Flag, exit: &mut Flag) -> bool {
        let set = self.leaves(node, entry.set);
        let changed = set != exit.set;
        exit.set = set;
        changed
    }

    ghost laws = { λ t. kept_laws (λ n. n == t.sets) (λ n. n == t.clears) };
}

/// Whether each arc joins two of the nodes.
fn is_within(arcs: &[(u32, u32)], nodes: u32) -> bool
    ensures { IsTrue result → ArcsWithin arcs.now nodes }
{
    for (from, to) in arcs {
        if *from >= nodes || *to >= nodes {
            return false;
        }
    }
    true
}

/// A flag for each node, set but for node 0.
fn starts(alloc: Global, nodes: u32) -> Result<Vec<Flag>, AllocError>
    ensures { IfOk result (λ list. vec_len list ≡ nodes) }
{
    let mut list = Vec::new(alloc);
    for node in 0..nodes {
        list.push(Flag { set: node > 0 })?;
    }
    Ok(list)
}

/// The entries after as many plain passes over the arcs as there are nodes, and one more.
fn by_passes(alloc: Global, graph: &Digraph, marks: &Marks) -> Result<Vec<Flag>, AllocError> {
    let mut entry = starts(alloc, graph.nodes)?;
    for _ in 0..=graph.nodes {
        for (from, to) in graph.arcs.iter() {
            let set = entry.get(*from as usize).is_some_and(|flag| flag.set);
            if !marks.leaves(*from, set) {
                if let Some(end) = entry.get_mut(*to as usize) {
                    end.set = false;
                }
            }
        }
    }
    Ok(entry)
}

/// Solves, and compares with the plain passes.
fn compare(
    rt: &impl Abort,
    alloc: Global,
    graph: &Digraph,
    sets: u32,
    clears: u32,
) -> Result<(), Fail> {
    let marks = Marks { sets, clears };
    assert!(rt; is_within(graph.arcs.as_slice(), graph.nodes));
    let entry = starts(alloc, graph.nodes)?;
    let exit = starts(alloc, graph.nodes)?;
    let Solution { entry, exit: _ } = solve(alloc, graph, &marks, entry, exit)?;
    let plain = by_passes(alloc, graph, &marks)?;
    assert_eq!(rt;
        entry.as_slice(),
        plain.as_slice(),
        "sets {sets}, clears {clears}"
    );
    Ok(())
}

#[test]
fn small_graphs(rt: HostRuntime) -> Result<(), Fail> {
    let rows = [
        (1, [(0, 0)].as_slice()),
        (3, [(0, 1), (1, 2)].as_slice()),
        (4, [(0, 1), (0, 2), (1, 3), (2, 3)].as_slice()),
        (4, [(0, 1), (1, 2), (2, 1), (2, 3)].as_slice()),
        (4, [(0, 1), (0, 1), (1, 1), (3, 1), (3, 2)].as_slice()),
        (
            5,
            [(0, 1), (0, 2), (1, 2), (2, 1), (1, 3), (4, 4)].as_slice(),
        ),
        (
            6,
            [(5, 4), (4, 3), (3, 2), (2, 1), (1, 0), (0, 5)].as_slice(),
        ),
    ];
    for (nodes, arcs) in rows {
        let graph = Digraph {
            nodes,
            arcs: arcs.to_vec(rt.alloc())?,
        };
        for sets in 0..=nodes {
            for clears in 0..=nodes {
                compare(&rt, rt.alloc(), &graph, sets, clears)?;
            }
        }
    }
    Ok(())
}
