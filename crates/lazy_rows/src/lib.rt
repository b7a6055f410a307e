//! Lazy placements of small modules.
#![tactic(auto)]

#[cfg(test)]
mod placing;
#[cfg(test)]
mod sources;
#[cfg(test)]
mod tests;
