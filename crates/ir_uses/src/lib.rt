//! What the names of a tree mean, and the rules of their uses.
#![tactic(auto)]

pub mod calls;
pub mod definitions;
pub mod error;
pub mod literals;
pub mod meanings;
pub mod types;
pub mod uses;
