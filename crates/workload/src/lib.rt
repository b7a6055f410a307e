//! A large module that is made of a number: diamonds one behind another, with the counts of its slots.
#![tactic(auto)]

mod blocks;
mod building;
mod laws;
mod naming;

pub use building::{Counted, workload};
pub use laws::workloads_are_sound;
pub use naming::{RoundNames, names};
