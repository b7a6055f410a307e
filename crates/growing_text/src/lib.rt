//! A text that grows in memory.
#![tactic(auto)]

mod text;

pub use text::Text;
