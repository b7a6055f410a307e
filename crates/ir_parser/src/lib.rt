//! The trees that lists of tokens spell.
#![tactic(auto)]

mod calls;
mod instrs;
mod modules;
mod parsing;
mod profile;
mod terms;
mod tokens;
mod values;
mod words;

pub use parsing::{ParseError, one_reading, parse};
