//! Placements of an expression: where it is computed, what that costs, and whether it is enough.
#![tactic(auto)]

mod checking;
mod costs;
mod living;
mod marking;
pub mod placements;
mod telling;

pub use checking::first_invalid;
pub use costs::{BASE, cost, weight};
pub use living::live_points;
pub use placements::Placement;
