//! The rules of a tree: the module that it means, or its first problem.
#![tactic(auto)]

mod blocks;
mod checking;
mod functions;
mod instrs;
mod limits;
mod reached;
mod terms;
mod tree;

pub use checking::check;
pub use ir_uses::error::CheckError;
pub use limits::within_limits;
