//! Numbers that meet in the lesser one.

ghost use Rattle.std.specs.Prelude.{ℕ, ◌==◌, min};
ghost use Rattle.dataflow.specs.Levels.{cap_laws, capped, least_laws};

use super::is_within;
use crate::{Digraph, Meet, Transfer, solve};
use std::marker::Model;
use std::test::Fail;

/// How much can come to a node.
#[derive(Drop)]
struct Level {
    value: u32,
}

impl Model for Level {
    ghost Value = { ℕ };

    ghost view = { λ level. level.value };
}

impl Meet for Level {
    ghost Alike = { λ x y. Unit {0} };

    ghost met = { min };

    ghost height_of = { λ x. x };

    fn meet(&mut self, other: &Self) -> bool {
        let falls = other.value < self.value;
        if falls {
            self.value = other.value;
        }
        falls
    }

    fn height(&self) -> u64 {
        self.value as u64
    }

    ghost laws = { least_laws };
}

/// A node that lets at most so much through.
#[derive(Clone, Copy)]
struct Cap {
    node: u32,
    most: u32,
}

impl Transfer<Level> for Cap {
    ghost Knows = { λ t n x. Unit {0} };

    ghost leaving = { λ t n x. capped (n == t.node) t.most x };

    fn leave(&self, node: u32, entry: &Level, exit: &mut Level) -> bool {
        let before = exit.value;
        exit.value = if node == self.node {
            entry.value.min(self.most)
        } else {
            entry.value
        };
        before != exit.value
    }

    ghost laws = { λ t. cap_laws (λ n. n == t.node) t.most };
}

#[test]
fn levels_fall_round_a_loop(rt: HostRuntime) -> Result<(), Fail> {
    let alloc = rt.alloc();
    let graph = Digraph {
        nodes: 5,
        arcs: [(0, 1), (1, 2), (2, 1), (2, 3), (4, 4)].to_vec(alloc)?,
    };
    assert!(rt; is_within(graph.arcs.as_slice(), graph.nodes));
    let mut entry = Vec::new(alloc);
    let mut exit = Vec::new(alloc);
    for value in [7, 9, 9, 9, 9] {
        entry.push(Level { value })?;
        exit.push(Level { value: 9 })?;
    }
    assert_eq!(rt; entry.len(), 5);
    assert_eq!(rt; exit.len(), 5);
    let cap = Cap { node: 2, most: 3 };
    let solution = solve(alloc, &graph, &cap, entry, exit)?;
    for (level, want) in solution.entry.iter().zip([7, 3, 3, 3, 9]) {
        assert_eq!(rt; level.value, want);
    }
    for (level, want) in solution.exit.iter().zip([7, 3, 3, 3, 9]) {
        assert_eq!(rt; level.value, want);
    }
    Ok(())
}
