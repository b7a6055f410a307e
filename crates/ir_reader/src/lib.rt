//! Texts: read as modules or refused at their place, and read back from what is printed.
#![tactic(auto)]

mod laws;
mod reading;

pub use laws::{one_answer, reads_back};
pub use reading::{ReadError, Refusal, read};
