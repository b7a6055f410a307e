//! Large inputs that are made of a number: the text of a module, and that of its profile.
#![tactic(auto)]

mod laws;
mod making;

pub use laws::workloads_are_accepted;
pub use making::{Workload, make};
