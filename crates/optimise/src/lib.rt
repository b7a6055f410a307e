//! The optimiser: what is placed where by the counts of a profile, and the module to which it is applied.
#![tactic(auto)]

mod choices;
mod choosing;
pub mod error;
mod optimising;

pub use choices::{choose, named_placements, optimised_are_choices};
pub use error::OptimiseError;
pub use optimising::{Optimised, optimise};
