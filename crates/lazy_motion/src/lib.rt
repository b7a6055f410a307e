//! Lazy code motion of an expression: it is computed as seldom as a safe placement can, and as late as that allows.
#![tactic(auto)]

mod delayed;
mod early;
mod law;
mod placing;
mod telling;

pub use law::one_lazy;
pub use placing::lazy;
