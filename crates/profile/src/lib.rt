//! Profiles: counts of a module, their text, and their balance.
#![tactic(auto)]

mod checking;
pub mod counts;
mod laws;
pub mod lines;
mod numbers;
mod printing;
mod reading;
mod shapes;
mod sums;

pub use counts::{FnCounts, Profile};
pub use laws::{one_answer, reads_back};
pub use printing::print_profile;
pub use reading::{ProfileError, read_profile};
pub use sums::{balanced, count_of_block};
