//! The first prefix of made names that no name of a function begins with.
#![tactic(auto)]

mod choosing;
mod least;
mod reading;

pub use choosing::fresh_prefix;
