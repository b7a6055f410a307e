//! Greatest fixed points over a directed graph.
#![tactic(auto)]

mod flag;
mod graph;
mod lattice;
mod order;
mod solution;
mod worklist;

pub use flag::Flag;
pub use graph::Digraph;
pub use lattice::{Meet, Transfer};
pub use solution::{Solution, solve};

#[cfg(test)]
mod tests;
