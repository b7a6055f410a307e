//! What placements cost and save, as text: line by line, or the sums alone.
#![tactic(auto)]

mod laws;
mod lines;
mod reporting;
mod sums;

pub use laws::one_report;
pub use reporting::{report, summary};
