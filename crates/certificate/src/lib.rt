//! Certificates of placements, and their JSON form.
#![tactic(auto)]

mod entries;
mod laws;
mod leaves;
mod part;
pub mod path;
mod read;
pub mod types;
mod write;

pub use laws::{one_answer, text_holds_its_certificate};
pub use path::{CertError, CertKey, CertPath};
pub use read::from_json;
pub use types::{Certificate, Entry};
pub use write::to_json;
