//! The changes that placements make in a function.
#![tactic(auto)]

mod blocks;
mod laws;
mod marks;
mod moves;
mod planning;

pub use laws::{plan_is_plan, plan_is_small};
pub use planning::changes;
