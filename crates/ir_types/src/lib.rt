//! The trees that texts spell, the modules that they mean, and the names, lists and rules of both.
#![tactic(auto)]

pub mod bytes;
mod copies;
pub mod duplicate;
pub mod items;
pub mod module;
pub mod name;
pub mod operands;
pub mod rules;
pub mod span;
pub mod syntax;
pub mod tree;
