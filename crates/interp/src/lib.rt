//! Bounded runs of modules, with their counts.
#![tactic(auto)]

mod ends;
mod running;
mod starts;
mod tally;

pub use ends::RunEnd;
pub use running::run;
pub use starts::main_of;
