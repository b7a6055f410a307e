//! Machines that make one step at a time: their runs, the machine of frames, and when two runs are alike.
#![tactic(auto)]

mod events;

pub use events::Event;
