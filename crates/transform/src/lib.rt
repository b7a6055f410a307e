//! The module to which placements are applied.
#![tactic(auto)]

mod applying;
pub mod placed;

pub use applying::{apply, is_defined};
pub use placed::Placed;
