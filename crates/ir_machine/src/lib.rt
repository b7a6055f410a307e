//! The step machine of modules: what one instruction or terminator does.
#![tactic(auto)]

mod calls;
mod ends;
pub mod frame;
pub mod machine;
mod step;
pub mod values;

pub use machine::Machine;
pub use machines::Event;
