//! The checker of certificates, which trusts nothing that found the placements.
#![tactic(auto)]

mod checking;
mod faults;
mod lengths;
pub mod numbered;
mod placing;
mod sums;
mod texts;
pub mod verdict;

pub use checking::check_all;
pub use verdict::{Reason, Verdict};
