//! Where an expression is sure to occur, and what each block does to it.
#![tactic(auto)]

mod blocks;
mod counting;
pub mod flags;
mod inevitability;
mod reaching;
mod telling;
mod validity;

pub use blocks::{BlockSets, local_sets};
pub use flags::Reach;
pub use inevitability::inevitable;
pub use reaching::reach;
