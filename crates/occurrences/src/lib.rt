//! Where the expressions of a function occur.
#![tactic(auto)]

mod listing;

pub use listing::occurrences;
