//! Checks of flows and of ranks in networks, without memory.
#![tactic(auto)]

mod flow;
mod ranks;

pub use flow::check_flow;
pub use ranks::check_ranks;

#[cfg(test)]
mod tests;
