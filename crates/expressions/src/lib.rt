//! The expressions of a function, and what each point of the function is to them.
#![tactic(auto)]

pub mod args;
mod changes;
mod events;
mod listing;
mod operations;
pub mod syntax;
mod tables;
mod walk;

pub use args::Args;
pub use events::event;
pub use listing::table;
pub use syntax::{Arg, Event, Expr};
pub use tables::Table;
