//! The new text of a function: its blocks, the blocks that split slots, and its temporaries.
#![tactic(auto)]

mod function;
mod layout;
mod splits;
mod terminators;

pub use function::new_function;
