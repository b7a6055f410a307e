//! How a call of the tool ends: its status, and its line, put in pieces without memory.
#![tactic(auto)]

pub mod ending;
mod lines;
mod path;
mod profile_lines;
mod reasons;
mod refused;

pub use ending::{Done, Problem, ProfileProblem, Stop, status_of};
pub use lines::finish;
pub use path::put_path;
pub use profile_lines::problem_of;
pub use refused::{excerpt_at, place_of};
