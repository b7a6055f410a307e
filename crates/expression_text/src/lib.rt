//! Expressions as text: operations as the canonical text has them, with variables in place of registers.
#![tactic(auto)]

mod args;
mod laws;
mod operations;
mod words;

pub use args::put_global;
pub use laws::as_printed;
pub use operations::put_expression;
