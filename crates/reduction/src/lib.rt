//! The block network of an expression, and what is needed of it.
#![tactic(auto)]

mod block_arcs;
mod building;
mod reducing;

pub use building::{BlockNet, network};
pub use reducing::{Reduced, reduce};
