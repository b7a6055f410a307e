//! What holds on some path or on every path of a graph whose points and edges write and kill a value.
#![tactic(auto)]

mod lives;
pub mod marks;
mod spreading;
mod stretches;
mod wording;

pub use lives::meets_unwritten;
pub use marks::Mark;
pub use spreading::spread;
pub use stretches::unwritten;
pub use wording::after_last_kill;

#[cfg(test)]
mod tests;
