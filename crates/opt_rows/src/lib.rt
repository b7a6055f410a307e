//! Modules with placements applied, and optimised ones, beside their texts.
#![tactic(auto)]

mod checking;
#[cfg(test)]
mod outcomes;
#[cfg(test)]
mod runs;
#[cfg(test)]
mod sources;
#[cfg(test)]
mod tests;
#[cfg(test)]
mod traps;
#[cfg(test)]
mod zeros;

pub use checking::checked_apply;
