//! Where a value is live, by a search that looks at no other points.
#![tactic(auto)]

mod incoming;
mod search;
mod sets;

pub use incoming::Incoming;
