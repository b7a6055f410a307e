//! The check of one entry of a certificate.
#![tactic(auto)]

mod checking;
pub mod fault;
mod lists;
mod plain;
mod proof;
mod shown;
mod trapping;

pub use checking::check_entry;
pub use fault::Fault;
