//! The top call of the tool: a row of words is answered by a status, a line and the files that the row writes.
#![tactic(auto)]

mod accepted;
mod check;
mod command;
mod itself;
mod limit;
mod opt;
mod print;
mod putting;
mod reporting;
mod run;
mod top;

pub use top::{check_agrees_with_opt, mcpre};
