//! The points of a function and the edges between them, with their numbers.
#![tactic(auto)]

pub mod graph;
mod lists;
mod numbering;
mod starts;

pub use graph::{BlockStart, Edge, EdgeKind, Point, Points};
pub use lists::block_at;
pub use numbering::points;
